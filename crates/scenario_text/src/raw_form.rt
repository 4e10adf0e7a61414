//! The form of a line `raw`, by its words.
ghost use Rattle.std.specs.Prelude.{◌≡◌, ◌∷◌, ℕ, List, [], None, IfSome, IfNone};
ghost use Rattle.std.specs.Option.{option_copied};
ghost use Rattle.scenario_text.specs.Pieces.{pieces, pieces_behind};
ghost use Rattle.scenario_text.specs.RawForms.{last_of, patch_form, raw_words};

use crate::form::{NamedPatch, NamedRaw};
use crate::hex::{four_bytes, hex_len};
use crate::pieces::next_piece;
use trace_base::number::numeral;

#[tactic(auto, unfolding(crate::specs::RawForms::last_of))]
fn last_of(word: &[u8]) -> Option<bool>
    ensures { result ≡ last_of word.now }
{
    match word {
        b"last" => Some(true),
        b"more" => Some(false),
        _ => None,
    }
}

/// The words of a patch.
#[derive(Clone, Copy)]
struct PatchWords<'c> {
    chunk_id: &'c [u8],
    offset: &'c [u8],
    bytes: &'c [u8],
    last: &'c [u8],
}

/// The words of a text that has as many as a patch.
#[tactic(auto, using(crate::proofs::PieceLemmas::pieces_behind_none, crate::proofs::PieceLemmas::pieces_behind_some, crate::proofs::FormLemmas::patch_of_one, crate::proofs::FormLemmas::patch_of_two, crate::proofs::FormLemmas::patch_of_three, crate::proofs::FormLemmas::patch_of_more))]
fn patch_words(text: &[u8]) -> Option<PatchWords<'_>>
    ensures some { IfSome result (λ words. pieces 32 text.now
        ≡ words.chunk_id.now ∷ words.offset.now ∷ words.bytes.now ∷ words.last.now ∷ []) }
    ensures none { IfNone result (patch_form (pieces 32 text.now) ≡ None) }
{
    let (chunk_id, more) = next_piece(text, b' ');
    let (offset, more) = next_piece(more?, b' ');
    let (bytes, more) = next_piece(more?, b' ');
    let (last, more) = next_piece(more?, b' ');
    match more {
        None => Some(PatchWords {
            chunk_id,
            offset,
            bytes,
            last,
        }),
        Some(_more) => None,
    }
}

/// The patch that a text names.
#[tactic(auto, unfolding(crate::specs::RawForms::patch_form, crate::specs::RawForms::patch_by))]
fn named_patch(text: &[u8]) -> Option<Option<NamedPatch>>
    ensures { result ≡ patch_form (pieces 32 text.now) }
{
    let words = patch_words(text)?;
    Some(Some(NamedPatch {
        chunk_id: numeral(words.chunk_id)?,
        offset: numeral(words.offset)?,
        bytes: four_bytes(words.bytes)?,
        last: last_of(words.last)?,
    }))
}

/// The patch that a line names behind its payload, or none where nothing stands there.
#[tactic(auto, unfolding(crate::specs::RawForms::patch_form, crate::specs::Pieces::pieces_behind))]
fn patch_form(behind: Option<&[u8]>) -> Option<Option<NamedPatch>>
    ensures { result ≡ patch_form (pieces_behind 32 (option_copied behind.entry)) }
{
    match behind {
        None => Some(None),
        Some(text) => named_patch(text),
    }
}

/// The words of a line `raw` behind its writer.
#[derive(Clone, Copy)]
struct RawWords<'c> {
    chunk_id: &'c [u8],
    count: &'c [u8],
    flags: &'c [u8],
    buffer: &'c [u8],
    payload: &'c [u8],
    behind: Option<&'c [u8]>,
}

/// The words of a text that has as many as a chunk.
#[tactic(auto, using(crate::proofs::PieceLemmas::pieces_behind_some, crate::proofs::FormLemmas::raw_of_one, crate::proofs::FormLemmas::raw_of_two, crate::proofs::FormLemmas::raw_of_three, crate::proofs::FormLemmas::raw_of_four))]
fn split_raw(text: &[u8]) -> Option<RawWords<'_>>
    ensures some { IfSome result (λ words. pieces 32 text.now ≡ words.chunk_id.now ∷ words.count.now ∷ words.flags.now
        ∷ words.buffer.now ∷ words.payload.now ∷ pieces_behind 32 (option_copied words.behind)) }
    ensures none { IfNone result ((writer : List ℕ) → raw_words writer (pieces 32 text.now) ≡ None) }
{
    let (chunk_id, more) = next_piece(text, b' ');
    let (count, more) = next_piece(more?, b' ');
    let (flags, more) = next_piece(more?, b' ');
    let (buffer, more) = next_piece(more?, b' ');
    let (payload, behind) = next_piece(more?, b' ');
    Some(RawWords {
        chunk_id,
        count,
        flags,
        buffer,
        payload,
        behind,
    })
}

/// The chunk that a line `raw` names, by its second word and what stands behind it.
#[tactic(auto, unfolding(crate::specs::RawForms::raw_words, crate::specs::RawForms::raw_by))]
pub fn raw_words(writer: &[u8], behind: &[u8]) -> Option<NamedRaw>
    ensures { result ≡ raw_words writer.now (pieces 32 behind.now) }
{
    let words = split_raw(behind)?;
    Some(NamedRaw {
        writer: numeral(writer)?,
        chunk_id: numeral(words.chunk_id)?,
        count: numeral(words.count)?,
        flags: numeral(words.flags)?,
        buffer: numeral(words.buffer)?,
        len: hex_len(words.payload)?,
        patch: patch_form(words.behind)?,
    })
}
