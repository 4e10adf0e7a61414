//! The delivery law over accounts, and what is asked of an account: contracts of functions with
//! nothing to do.
ghost use Rattle.world_model.specs.AccountLaws.{EveryAccountIsFaithful, TablesBeginAsAccounts};
ghost use Rattle.world_model.specs.FrontLaws.{FindsAreFronts};

/// In every account the records that are written are faithful to the emitted packets.
pub fn every_account_is_faithful()
    ensures { EveryAccountIsFaithful }
{}

/// What was found of a chunk while it was written, with a finished fragment at least, is a front of
/// what its writer completes or holds, as accounts ask it of the parts that a scrape takes.
pub fn finds_are_fronts()
    ensures { FindsAreFronts }
{}

/// A table as it is made is an account.
pub fn tables_begin_as_accounts()
    ensures { TablesBeginAsAccounts }
{}
