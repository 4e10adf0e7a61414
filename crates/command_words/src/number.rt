//! Numbers as words.
ghost use Rattle.std.specs.Prelude.{◌≡◌, ℕ, ◌<◌, ◌≤◌, ◌^◌, decimal, IfSome, IfNone};

/// The number that the text is the decimal form of, without a sign and without a leading zero.
pub fn number_of(text: &str) -> Option<u64>
    ensures some { IfSome result (λ number. text.now ≡ decimal number) }
    ensures none { IfNone result ((number : ℕ) → number < 2 ^ 64 → text.now ≡ decimal number → ⊥) }
{
    let Ok(number) = text.parse::<u64>() else {
        return None;
    };
    let mut digits = itoa::Buffer::new();
    if digits.format(number) == text {
        Some(number)
    } else {
        None
    }
}

/// The same of a number from 1 to `most`.
pub fn count_of(text: &str, most: u32) -> Option<u32>
    ensures some { IfSome result (λ count. (text.now ≡ decimal count) × (1 ≤ count) × (count ≤ most)) }
    ensures none { IfNone result ((count : ℕ) → 1 ≤ count → count ≤ most → text.now ≡ decimal count → ⊥) }
{
    let number = number_of(text)?;
    if 1 <= number && number <= u64::from(most) {
        Some(number as u32)
    } else {
        None
    }
}
