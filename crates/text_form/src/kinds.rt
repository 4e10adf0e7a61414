//! Kinds of bytes, and runs of one kind.
ghost use Rattle.std.specs.Prelude.{◌≡◌, ℕ, ◌≤◌, ◌∷◌, [], Bool, not, length, MatchOption};
ghost use Rattle.std.specs.List.{position};
ghost use Rattle.std.specs.Option.{ForSome};
ghost use Rattle.text_form.specs.Bytes as kinds;
ghost use Rattle.text_form.specs.Walking.{IsRun};

#[inline(always)]
pub(crate) fn is_blank(byte: u8) -> bool
    ensures { result ≡ kinds.is_blank byte }
{
    byte == b' ' || byte == b'\t' || byte == b'\r' || byte == b'\n'
}

#[inline(always)]
pub(crate) fn is_separator(byte: u8) -> bool
    ensures { result ≡ kinds.is_separator byte }
{
    byte == b';' || byte == b','
}

#[inline(always)]
pub(crate) fn is_name_start(byte: u8) -> bool
    ensures { result ≡ kinds.is_name_start byte }
{
    (b'a' <= byte && byte <= b'z') || (b'A' <= byte && byte <= b'Z') || byte == b'_'
}

#[inline(always)]
fn is_name_byte(byte: u8) -> bool
    ensures { result ≡ kinds.is_name_byte byte }
{
    is_name_start(byte) || (b'0' <= byte && byte <= b'9')
}

#[inline(always)]
fn is_word_byte(byte: u8) -> bool
    ensures { result ≡ kinds.is_word_byte byte }
{
    is_name_byte(byte) || byte == b'.' || byte == b'+' || byte == b'-'
}

#[inline(always)]
fn is_text_byte(byte: u8) -> bool
    ensures { result ≡ kinds.is_text_byte byte }
{
    b' ' <= byte && byte <= b'~' && byte != b'"' && byte != b'\\'
}

#[inline(always)]
fn is_comment_byte(byte: u8) -> bool
    ensures { result ≡ kinds.is_comment_byte byte }
{
    byte < 128 && byte != b'\n'
}

/// The first byte, and those behind it.
#[inline(always)]
pub(crate) fn first_byte(bytes: &[u8]) -> Option<(u8, &[u8])>
    ensures { MatchOption result (bytes.now ≡ []) (λ found. bytes.now ≡ found.0 ∷ found.1.now) }
{
    match bytes {
        [] => None,
        [first, behind @ ..] => Some((*first, behind)),
    }
}

/// The bytes of one kind in front, and those behind them.
#[derive(Clone, Copy)]
pub(crate) struct Run<'a> {
    pub front: &'a [u8],
    pub left: &'a [u8],
}

/// Cuts before the place, if there is one.
#[inline(always)]
fn cut(bytes: &[u8], place: Option<usize>) -> Run<'_>
    requires { ForSome place (λ n. n ≤ length bytes.now) }
    ensures { (kind : ℕ → Bool) → place ≡ position (λ byte. not (kind byte)) bytes.now → IsRun kind bytes.now result.front.now result.left.now }
{
    let (front, left) = bytes.split_at(place.unwrap_or(bytes.len()));
    Run { front, left }
}

#[inline(always)]
fn name_end(bytes: &[u8]) -> Option<usize>
    ensures { result ≡ position (λ byte. not (kinds.is_name_byte byte)) bytes.now }
{
    bytes.iter().position(|&byte| !is_name_byte(byte))
}

/// The bytes of a name in front.
#[inline(always)]
pub(crate) fn name_run(bytes: &[u8]) -> Run<'_>
    ensures { IsRun kinds.is_name_byte bytes.now result.front.now result.left.now }
{
    cut(bytes, name_end(bytes))
}

#[inline(always)]
fn word_end(bytes: &[u8]) -> Option<usize>
    ensures { result ≡ position (λ byte. not (kinds.is_word_byte byte)) bytes.now }
{
    bytes.iter().position(|&byte| !is_word_byte(byte))
}

/// The bytes of a word in front.
#[inline(always)]
pub(crate) fn word_run(bytes: &[u8]) -> Run<'_>
    ensures { IsRun kinds.is_word_byte bytes.now result.front.now result.left.now }
{
    cut(bytes, word_end(bytes))
}

#[inline(always)]
fn text_end(bytes: &[u8]) -> Option<usize>
    ensures { result ≡ position (λ byte. not (kinds.is_text_byte byte)) bytes.now }
{
    bytes.iter().position(|&byte| !is_text_byte(byte))
}

/// The bytes of a text in quotes in front.
#[inline(always)]
pub(crate) fn text_run(bytes: &[u8]) -> Run<'_>
    ensures { IsRun kinds.is_text_byte bytes.now result.front.now result.left.now }
{
    cut(bytes, text_end(bytes))
}

#[inline(always)]
fn comment_end(bytes: &[u8]) -> Option<usize>
    ensures { result ≡ position (λ byte. not (kinds.is_comment_byte byte)) bytes.now }
{
    bytes.iter().position(|&byte| !is_comment_byte(byte))
}

/// The bytes of a comment in front.
#[inline(always)]
pub(crate) fn comment_run(bytes: &[u8]) -> Run<'_>
    ensures { IsRun kinds.is_comment_byte bytes.now result.front.now result.left.now }
{
    cut(bytes, comment_end(bytes))
}
