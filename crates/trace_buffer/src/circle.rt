//! Bits for as many positions from a base on as may be ahead, as a circle: the bit of one stands at its
//! remainder, so that nothing is moved when the base rises.
ghost use Rattle.std.specs.Prelude.{◌≡◌, ℕ, ◌+◌, ◌%◌, ◌<◌, ◌≤◌, ◌^◌, max, true, false, length};
ghost use Rattle.trace_model.specs.Sequences.{above_all, is_among};
ghost use Rattle.trace_buffer.specs.Circle.{bit, marked, arrived_of};

use trace_base::limits::IDS_AHEAD;

/// Raises the base over the bits that are set, and clears them.
pub fn settle(bits: &mut [bool], base: u64) -> u64
    requires len { length bits.old ≡ IDS_AHEAD }
    requires low { base ≤ 2 ^ 32 }
    requires small { (i : ℕ) → is_among i (arrived_of base bits.old) ≡ true → i < 2 ^ 32 }
    ensures len { length bits.new ≡ IDS_AHEAD }
    ensures same { arrived_of result bits.new ≡ arrived_of base bits.old }
    ensures settled { bit bits.new result ≡ false }
    ensures low { result ≤ 2 ^ 32 }
{
    let mut base = base;
    while bits[place_of(base)] {
        bits[place_of(base)] = false;
        base += 1;
    }
    base
}

/// One above the last position of either circle, and the base where all bits are clear.
pub fn end_of_bits(ahead: &[bool], finals: &[bool], base: u64) -> u64
    requires ahead { length ahead.now ≡ IDS_AHEAD }
    requires finals { length finals.now ≡ IDS_AHEAD }
    requires low { base ≤ 2 ^ 32 }
    ensures is { result ≡ max (above_all (arrived_of base ahead.now)) (above_all (marked finals.now IDS_AHEAD base)) }
    ensures low { result ≤ base + IDS_AHEAD }
{
    let mut end = base + u64::from(IDS_AHEAD);
    while base < end {
        let place = place_of(end - 1);
        if ahead[place] {
            return end;
        }
        if finals[place] {
            return end;
        }
        end -= 1;
    }
    end
}

/// Where the bit of a position stands.
pub fn place_of(position: u64) -> usize
    ensures is { result ≡ position % IDS_AHEAD }
    ensures within { result < IDS_AHEAD }
{
    (position % u64::from(IDS_AHEAD)) as usize
}
