//! The least key of a range, over slots one by one.
ghost use Rattle.std.specs.Prelude.{◌≡◌};
ghost use Rattle.chunk_index.specs.Least.{nearer_of};

use crate::slot::{Entry, key_number};

/// Key and place of the slot's entry, where its key is in the range and below the best one so far;
/// else the best one so far.
pub fn nearer(
    low: u64,
    high: u64,
    best: Option<(u64, u32)>,
    slot: Option<Entry>,
) -> Option<(u64, u32)>
    ensures { result ≡ nearer_of low high best slot }
{
    let Some(entry) = slot else {
        return best;
    };
    let key = key_number(entry.sequence, entry.chunk_id);
    if key < low || key > high {
        return best;
    }
    if let Some((least, _)) = best
        && least <= key
    {
        return best;
    }
    Some((key, entry.place))
}
