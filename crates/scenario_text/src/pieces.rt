//! A text cut at each place of one byte: lines at line feeds, words at spaces.
ghost use Rattle.std.specs.Prelude.{◌≡◌, ◌==◌, ◌<◌, ◌≤◌, ◌∷◌, [], length, position, IfSome};
ghost use Rattle.std.specs.List.{after_first};
ghost use Rattle.std.specs.Option.{option_copied, unwrap_or};
ghost use Rattle.scenario_text.specs.Pieces.{pieces, pieces_behind};

use memchr::memchr;

/// Lines are long and words are short, so that wide steps pay for lines alone.
#[inline(always)]
#[tactic(auto, using(crate::proofs::PieceLemmas::first_byte_is))]
fn find_byte(bytes: &[u8], separator: u8) -> Option<usize>
    ensures { result ≡ position (λ b. b == separator) bytes.now }
{
    if separator == b'\n' {
        return memchr(separator, bytes);
    }
    bytes.iter().position(|b| *b == separator)
}

/// The first piece, and what stands behind the separator that ends it, if one does.
#[tactic(auto, using(crate::proofs::PieceLemmas::one_piece, crate::proofs::PieceLemmas::more_pieces))]
pub fn next_piece(bytes: &[u8], separator: u8) -> (&[u8], Option<&[u8]>)
    ensures cut { pieces separator bytes.now ≡ result.0.now ∷ pieces_behind separator (option_copied result.1) }
    ensures behind { unwrap_or (option_copied result.1) [] ≡ after_first (λ b. b == separator) bytes.now }
    ensures shorter { IfSome result.1 (λ behind. length behind.now < length bytes.now) }
    ensures inside { length result.0.now ≤ length bytes.now }
{
    match find_byte(bytes, separator) {
        None => (bytes, None),
        Some(at) => (&bytes[..at], Some(&bytes[at + 1..])),
    }
}
