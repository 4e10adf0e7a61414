//! Reading the form of a line.
ghost use Rattle.std.specs.Prelude.{◌≡◌};
ghost use Rattle.scenario_text.specs.Pieces.{fields_part, pieces};
ghost use Rattle.scenario_text.specs.Forms.{buffer_form, form_of, four_words, long_form, more_words, one_word, policy_form, producer_form, service_form, short_form, three_words, two_words, writer_form, six_words, late_words};

use crate::form::{Form, NamedPolicy, ProducerStep, WriterStep};
use crate::pieces::next_piece;
use crate::raw_form::raw_words;
use trace_base::number::numeral;
use trace_base::numeral::Numeral;
use trace_base::policy::FullPolicy;

#[tactic(auto, unfolding(crate::specs::Forms::one_word))]
fn one_word(word: &[u8]) -> Option<Form>
    ensures { result ≡ one_word word.now }
{
    if word == b"q".as_slice() {
        Some(Form::Request)
    } else {
        None
    }
}

#[tactic(auto, unfolding(crate::specs::Forms::service_form))]
fn service_form(word: &[u8], n: Numeral) -> Option<Form>
    ensures { result ≡ service_form word.now n }
{
    let step = match word {
        b"c" => ProducerStep::Collect,
        b"s" => ProducerStep::Scrape,
        b"x" => ProducerStep::Close,
        b"r" => {
            return Some(Form::Read {
                buffer: n,
                limit: None,
            });
        }
        b"k" => return Some(Form::CloneBuffer { buffer: n }),
        _ => return None,
    };
    Some(Form::OfProducer { producer: n, step })
}

#[tactic(auto, unfolding(crate::specs::Forms::short_form))]
fn short_form(word: &[u8], n: Numeral) -> Option<Form>
    ensures { result ≡ short_form word.now n }
{
    let step = match word {
        b"p" => WriterStep::Packet { has_fields: false },
        b"b" => WriterStep::Begin,
        b"a" => WriterStep::Add,
        b"u" => WriterStep::Unnest,
        b"e" => WriterStep::End,
        b"f" => WriterStep::Flush,
        _ => return service_form(word, n),
    };
    Some(Form::OfWriter { writer: n, step })
}

#[tactic(auto, unfolding(crate::specs::Forms::two_words, crate::specs::Forms::with_number))]
fn two_words(word: &[u8], second: &[u8]) -> Option<Form>
    ensures { result ≡ two_words word.now second.now }
{
    short_form(word, numeral(second)?)
}

#[tactic(auto, unfolding(crate::specs::Forms::buffer_form))]
fn buffer_form(policy: &[u8], kb: Numeral) -> Option<Form>
    ensures { result ≡ buffer_form policy.now kb }
{
    let policy = if policy == b"ring".as_slice() {
        FullPolicy::Ring
    } else if policy == b"discard".as_slice() {
        FullPolicy::Discard
    } else {
        return None;
    };
    Some(Form::Buffer { kb, policy })
}

#[tactic(auto, unfolding(crate::specs::Forms::three_words, crate::specs::Forms::with_number))]
fn three_words(word: &[u8], second: &[u8], third: &[u8]) -> Option<Form>
    ensures { result ≡ three_words word.now second.now third.now }
{
    if word == b"buffer".as_slice() {
        return buffer_form(third, numeral(second)?);
    }
    match word {
        b"n" => Some(Form::OfWriter {
            writer: numeral(second)?,
            step: WriterStep::Nest {
                field: numeral(third)?,
            },
        }),
        b"r" => Some(Form::Read {
            buffer: numeral(second)?,
            limit: Some(numeral(third)?),
        }),
        _ => None,
    }
}

#[tactic(auto, unfolding(crate::specs::Forms::producer_form, crate::specs::Forms::with_number))]
fn producer_form(second: &[u8], third: &[u8], fourth: &[u8]) -> Option<Form>
    ensures { result ≡ producer_form second.now third.now fourth.now }
{
    Some(Form::Producer {
        pages: numeral(second)?,
        page_size: numeral(third)?,
        chunks: numeral(fourth)?,
    })
}

#[tactic(auto, unfolding(crate::specs::Forms::policy_form, crate::specs::Forms::with_number))]
fn policy_form(
    policy: &[u8],
    producer: Numeral,
    buffer: Numeral,
    from: Option<Numeral>,
) -> Option<Form>
    ensures { result ≡ policy_form policy.now producer buffer from }
{
    let policy = match policy {
        b"drop" => NamedPolicy::Drops,
        b"stall" => NamedPolicy::Stalls,
        _ => NamedPolicy::StallsThenDrops {
            tries: numeral(policy.strip_prefix(b"stall:")?)?,
        },
    };
    Some(Form::Writer {
        producer,
        buffer,
        policy,
        from,
    })
}

#[tactic(auto, unfolding(crate::specs::Forms::writer_form, crate::specs::Forms::with_number))]
fn writer_form(second: &[u8], third: &[u8], fourth: &[u8], from: Option<Numeral>) -> Option<Form>
    ensures { result ≡ writer_form second.now third.now fourth.now from }
{
    policy_form(fourth, numeral(second)?, numeral(third)?, from)
}

#[tactic(auto, unfolding(crate::specs::Forms::four_words))]
fn four_words(word: &[u8], second: &[u8], third: &[u8], fourth: &[u8]) -> Option<Form>
    ensures { result ≡ four_words word.now second.now third.now fourth.now }
{
    if word == b"producer".as_slice() {
        producer_form(second, third, fourth)
    } else if word == b"writer".as_slice() {
        writer_form(second, third, fourth, None)
    } else {
        None
    }
}

#[tactic(auto, unfolding(crate::specs::Forms::six_words, crate::specs::Forms::with_number))]
fn six_words(
    word: &[u8],
    second: &[u8],
    third: &[u8],
    fourth: &[u8],
    fifth: &[u8],
    sixth: &[u8],
) -> Option<Form>
    ensures { result ≡ six_words word.now second.now third.now fourth.now fifth.now sixth.now }
{
    if word == b"writer".as_slice() && fifth == b"from".as_slice() {
        let from = numeral(sixth)?;
        writer_form(second, third, fourth, Some(from))
    } else {
        None
    }
}

/// The lines of more words than four, by what stands behind the fourth one.
#[tactic(auto, using(crate::proofs::PieceLemmas::pieces_behind_some, crate::proofs::FormLemmas::no_sixth_word, crate::proofs::FormLemmas::sixth_word, crate::proofs::FormLemmas::seventh_word))]
fn late_words(
    word: &[u8],
    second: &[u8],
    third: &[u8],
    fourth: &[u8],
    behind: &[u8],
) -> Option<Form>
    ensures { result ≡ late_words word.now second.now third.now fourth.now (pieces 32 behind.now) }
{
    let (fifth, more) = next_piece(behind, b' ');
    let behind_fifth = more?;
    let (sixth, more) = next_piece(behind_fifth, b' ');
    match more {
        None => six_words(word, second, third, fourth, fifth, sixth),
        Some(_more) => None,
    }
}

/// The other lines of three words and more, by what stands behind the second one.
#[tactic(auto, using(crate::proofs::PieceLemmas::pieces_behind_some, crate::proofs::FormLemmas::third_word, crate::proofs::FormLemmas::fourth_word, crate::proofs::FormLemmas::fifth_word))]
fn more_words(word: &[u8], second: &[u8], behind: &[u8]) -> Option<Form>
    ensures { result ≡ more_words word.now second.now (pieces 32 behind.now) }
{
    let (third, more) = next_piece(behind, b' ');
    let Some(behind_third) = more else {
        return three_words(word, second, third);
    };
    let (fourth, more) = next_piece(behind_third, b' ');
    match more {
        None => four_words(word, second, third, fourth),
        Some(behind_fourth) => late_words(word, second, third, fourth, behind_fourth),
    }
}

#[tactic(auto, unfolding(crate::specs::Forms::long_form, crate::specs::Forms::with_number, crate::specs::Forms::raw_form))]
fn long_form(word: &[u8], second: &[u8], behind: &[u8]) -> Option<Form>
    ensures { result ≡ long_form word.now second.now (pieces 32 behind.now) }
{
    let step = match word {
        b"p" => WriterStep::Packet { has_fields: true },
        b"a" => WriterStep::Add,
        b"raw" => {
            return Some(Form::Raw {
                raw: raw_words(second, behind)?,
            });
        }
        _ => return more_words(word, second, behind),
    };
    Some(Form::OfWriter {
        writer: numeral(second)?,
        step,
    })
}

/// The form of a line, if it has one, and what stands behind its second word: its FIELDS, or its
/// FIELD.
#[tactic(auto, using(crate::proofs::PieceLemmas::pieces_behind_some, crate::proofs::FormLemmas::first_word, crate::proofs::FormLemmas::second_word, crate::proofs::FormLemmas::several_words))]
pub fn form(line: &[u8]) -> (Option<Form>, &[u8])
    ensures form { result.0 ≡ form_of line.now }
    ensures fields { result.1.now ≡ fields_part line.now }
{
    let (word, more) = next_piece(line, b' ');
    let Some(behind) = more else {
        return (one_word(word), &[]);
    };
    let (second, more) = next_piece(behind, b' ');
    match more {
        None => (two_words(word, second), &[]),
        Some(fields) => (long_form(word, second, fields), fields),
    }
}
