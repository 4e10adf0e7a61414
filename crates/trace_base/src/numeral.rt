//! Decimal numbers of any length, without a sign and without a leading zero.
ghost use Rattle.std.specs.Prelude.{◌≡◌, ℕ, ◌<◌};

/// A number as a line spells it.
#[derive(Clone, Copy, Debug, PartialEq, Eq)]
pub enum Numeral {
    Fits(u64),
    /// 2^64 or more, which is outside every range.
    TooLarge,
}

impl Numeral {
    ghost use Rattle.std.specs.Prelude.{◌≡◌, ◌<◌};
    ghost use Rattle.trace_base.specs.Numerals.{longer};

    #[tactic(auto, unfolding(crate::specs::Numerals::longer, crate::specs::Numerals::sized))]
    pub fn longer(self, digit: u8) -> Self
        requires { digit < 10 }
        ensures { result ≡ longer self digit }
    {
        let Numeral::Fits(value) = self else {
            return Numeral::TooLarge;
        };
        match value.checked_mul(10) {
            None => Numeral::TooLarge,
            Some(tens) => match tens.checked_add(u64::from(digit)) {
                None => Numeral::TooLarge,
                Some(more) => Numeral::Fits(more),
            },
        }
    }
}
