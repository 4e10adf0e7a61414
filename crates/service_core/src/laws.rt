//! Laws on what the service notes: contracts of functions with nothing to do.
ghost use Rattle.service_core.specs.OrderLaws.{LeadsAreInOrder};

/// What the agreement says of the order of notes is what an account asks of it.
pub fn leads_are_in_order()
    ensures { LeadsAreInOrder }
{}
