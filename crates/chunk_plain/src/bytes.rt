//! Payload bytes in words, eight a word, the lowest first.
ghost use Rattle.std.specs.Prelude.{◌≡◌, ℕ, ◌+◌, ◌*◌, ◌/◌, ◌^◌, ◌<◌, ◌≤◌, ◌++◌, length, take, drop};
ghost use Rattle.chunk_plain.specs.Payload.{byte_of, byte_at, byte_in, StoredUpTo};

/// The word with the bytes from a place on, and zeros behind the last of them.
pub fn pack(from: &[u8], at: usize) -> u64
    requires { at ≤ length from.now }
    ensures { (m : ℕ) → m < 8 → at + m < length from.now → byte_of result m ≡ byte_in from.now (at + m) }
{
    let rest = &from[at..];
    if let Some(eight) = rest.first_chunk::<8>() {
        return u64::from_le_bytes(*eight);
    }
    let mut eight = [0; 8];
    for m in 0..rest.len() {
        eight[m] = rest[m];
    }
    u64::from_le_bytes(eight)
}

/// Stores the words from one place on, up to another one. Inside its callers its loop would have too
/// few registers.
#[inline(never)]
pub fn pack_words(words: &mut [u64], first: usize, end: usize, from: &[u8])
    requires order { first ≤ end }
    requires within { end ≤ length words.old }
    requires from { 8 * end < length from.now + 8 }
    ensures { StoredUpTo from.now first end words.old words.new }
{
    let whole = end.min(from.len() / 8).max(first);
    if first < whole {
        pack_all(&mut words[first..whole], &from[8 * first..]);
    }
    // The last word may have fewer bytes than eight.
    if whole < end {
        words[whole] = pack(from, 8 * whole);
    }
}

/// Stores all these words, each whole. Over a part of the words and what is left of the bytes, a step
/// has little to test.
#[inline(always)]
fn pack_all(words: &mut [u64], from: &[u8])
    requires { 8 * length words.old ≤ length from.now }
    ensures { StoredUpTo from.now 0 (length words.old) words.old words.new }
{
    let mut rest = from;
    for index in 0..words.len() {
        let (word, behind) = split_word(rest);
        words[index] = word;
        rest = behind;
    }
}

/// The word with the first eight bytes, and the bytes behind them.
fn split_word(bytes: &[u8]) -> (u64, &[u8])
    requires { 8 ≤ length bytes.now }
    ensures word { (m : ℕ) → m < 8 → byte_of result.0 m ≡ byte_in bytes.now m }
    ensures behind { result.1.now ≡ drop 8 bytes.now }
{
    let Some((eight, behind)) = bytes.split_first_chunk::<8>() else {
        unreachable!()
    };
    (u64::from_le_bytes(*eight), behind)
}

/// The place behind the last word that has a byte of this range; where it has none, its first word's.
pub fn word_end(from: u32, to: u32) -> usize
    ensures least { from / 8 ≤ result }
    ensures some { from < to → (to ≤ 8 * result) × (8 * result < to + 8) }
    ensures none { to ≤ from → result ≡ from / 8 }
{
    if from < to {
        (to as usize - 1) / 8 + 1
    } else {
        from as usize / 8
    }
}

/// As many words at once are stored.
const AT_ONCE: usize = 4;

/// The place up to which the words are stored where each is to be that has a byte of this range: some
/// more than these, so that they go by the same steps whatever the range is, but none behind the
/// payload.
pub fn stored_end(from: u32, to: u32, size: usize) -> usize
    requires order { from ≤ to }
    requires within { to ≤ size }
    requires small { size < 2 ^ 32 }
    ensures least { from / 8 ≤ result }
    ensures some { from < to → to ≤ 8 * result }
    ensures most { 8 * result < to + 32 }
    ensures within { 8 * result < size + 8 }
{
    let first = from as usize / 8;
    let count = word_end(from, to) - first;
    let rounded = (count + AT_ONCE - 1) / AT_ONCE * AT_ONCE;
    (first + rounded).min((size + 7) / 8)
}

/// Puts eight bytes at a place.
fn put_eight(into: &mut [u8], at: usize, eight: [u8; 8])
    requires { at + 8 ≤ length into.old }
    ensures { into.new ≡ take at into.old ++ eight ++ drop (at + 8) into.old }
{
    into[at..at + 8].copy_from_slice(&eight);
}

/// Puts the bytes of a word at a place.
pub fn put_bytes(into: &mut [u8], at: usize, word: u64)
    requires { at + 8 ≤ length into.old }
    ensures size { length into.new ≡ length into.old }
    ensures here { (m : ℕ) → m < 8 → byte_in into.new (at + m) ≡ byte_of word m }
    ensures before { (j : ℕ) → j < at → byte_in into.new j ≡ byte_in into.old j }
{
    put_eight(into, at, word.to_le_bytes());
}

/// Fills the bytes from the words.
pub fn unpack(words: &[u64], into: &mut [u8])
    requires { length into.old ≤ 8 * length words.now }
    ensures size { length into.new ≡ length into.old }
    ensures bytes { (j : ℕ) → j < length into.new → byte_in into.new j ≡ byte_at words.now j }
{
    let whole = into.len() / 8;
    for k in 0..whole {
        put_bytes(into, 8 * k, words[k]);
    }
    for j in 8 * whole..into.len() {
        into[j] = words[j / 8].to_le_bytes()[j % 8];
    }
}
