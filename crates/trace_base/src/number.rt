//! Reading a number.
ghost use Rattle.std.specs.Prelude.{◌≡◌};
ghost use Rattle.trace_base.specs.Numerals.{number_of, numeral_of, sized_value, value_from};

use crate::numeral::Numeral;

#[tactic(auto, using(crate::proofs::NumeralLemmas::goes_from_start, crate::proofs::NumeralLemmas::goes_on, crate::proofs::NumeralLemmas::goes_no_further, crate::proofs::NumeralLemmas::goes_to_end))]
fn digits_value(digits: &[u8]) -> Option<Numeral>
    ensures { result ≡ sized_value (value_from 0 digits.now) }
{
    let mut value = Numeral::Fits(0);
    for digit in digits {
        if !digit.is_ascii_digit() {
            return None;
        }
        value = value.longer(*digit - b'0');
    }
    Some(value)
}

/// The number that a word spells, however long it is.
#[tactic(auto, unfolding(crate::specs::Numerals::numeral_of, crate::specs::Numerals::number_of, crate::specs::Numerals::sized_value))]
pub fn numeral(word: &[u8]) -> Option<Numeral>
    ensures { result ≡ numeral_of word.now }
{
    match word {
        [] => None,
        [b'0', _, ..] => None,
        _ => digits_value(word),
    }
}
