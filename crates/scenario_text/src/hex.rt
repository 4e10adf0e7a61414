//! Bytes in lower-case hexadecimal digits, as the word `x'00ff'` has them.
ghost use Rattle.std.specs.Prelude.{◌≡◌, ℕ, ◌+◌, ◌++◌, ◌<◌, ◌≤◌, List, [], None, Some, length, drop, option_map, IfNone, IfSome};
ghost use Rattle.field_tree.specs.Machine as machine;
ghost use Rattle.scenario_text.specs.Hex.{hex_of, if_four, if_tick, in_front, pair_of, pairs_in};

/// The value of a digit.
#[tactic(auto, unfolding(field_tree::specs::Machine::hex_value))]
fn hex_value(byte: u8) -> Option<u8>
    ensures value { result ≡ machine.hex_value byte }
    ensures within { IfSome result (λ digit. digit < 16) }
{
    match byte {
        b'0'..=b'9' => Some(byte - b'0'),
        b'a'..=b'f' => Some(byte - b'a' + 10),
        _ => None,
    }
}

/// The byte that two digits say.
#[tactic(auto, unfolding(crate::specs::Hex::pair_of, crate::specs::Hex::byte_by))]
fn pair(high: u8, low: u8) -> Option<u8>
    ensures { result ≡ pair_of high low }
{
    let high = hex_value(high)?;
    let low = hex_value(low)?;
    Some(16 * high + low)
}

/// What stands behind the first tick of a word.
#[tactic(auto, unfolding(crate::specs::Hex::hex_of))]
fn digits_of(word: &[u8]) -> Option<&[u8]>
    ensures some { IfSome result (λ digits. hex_of word.now ≡ pairs_in digits.now) }
    ensures none { IfNone result (hex_of word.now ≡ None) }
    ensures shorter { IfSome result (λ digits. length digits.now ≤ length word.now) }
{
    let [first, second, digits @ ..] = word else {
        return None;
    };
    if *first == b'x' && *second == b'\'' {
        Some(digits)
    } else {
        None
    }
}

/// The byte that two bytes in front say, if they are digits, and what stands behind them.
#[tactic(auto, unfolding(crate::specs::Hex::pairs_in))]
fn next_pair(digits: &[u8]) -> Option<(Option<u8>, &[u8])>
    ensures some { IfSome result (λ found. pairs_in digits.now ≡ in_front found.0 (pairs_in found.1.now)) }
    ensures shorter { IfSome result (λ found. length found.1.now + 2 ≡ length digits.now) }
    ensures none { IfNone result (pairs_in digits.now ≡ if_tick digits.now) }
{
    match digits {
        [high, low, behind @ ..] => Some((pair(*high, *low), behind)),
        _ => None,
    }
}

/// How many bytes a word says.
pub fn hex_len(word: &[u8]) -> Option<usize>
    ensures { result ≡ option_map length (hex_of word.now) }
{
    let mut digits = digits_of(word)?;
    let mut len = 0;
    'digits: while let Some((byte, behind)) = next_pair(digits) {
        let Some(_byte) = byte else {
            return None;
        };
        len += 1;
        digits = behind;
    }
    if digits == b"'".as_slice() {
        Some(len)
    } else {
        None
    }
}

/// Puts the bytes that a word says into a room, from its beginning on.
pub fn put_hex(word: &[u8], room: &mut [u8])
    requires { (bytes : List ℕ) × (hex_of word.now ≡ Some bytes) × (length bytes ≤ length room.old) }
    ensures { (bytes : List ℕ) → hex_of word.now ≡ Some bytes → room.new ≡ bytes ++ drop (length bytes) room.old }
{
    let Some(word_digits) = digits_of(word) else {
        return;
    };
    let mut digits = word_digits;
    let mut at = 0;
    'digits: while let Some((byte, behind)) = next_pair(digits) {
        let Some(byte) = byte else {
            return;
        };
        room[at] = byte;
        at += 1;
        digits = behind;
    }
}

/// The bytes that a word says, where they are four.
pub fn four_bytes(word: &[u8]) -> Option<[u8; 4]>
    ensures { result ≡ if_four (hex_of word.now) }
{
    let Some(len) = hex_len(word) else {
        return None;
    };
    if len != 4 {
        return None;
    }
    let mut bytes = [0; 4];
    put_hex(word, &mut bytes);
    Some(bytes)
}
