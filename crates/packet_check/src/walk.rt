//! The walk over a packet's bytes, byte by byte.
ghost use Rattle.std.specs.Prelude.{◌≡◌, ◌+◌, ◌^◌, ◌<◌};
ghost use Rattle.packet_check.specs.Answers as spec;
ghost use Rattle.packet_check.specs.Values.{purpose_of, part_of, walk_of, IsPart, IsVarintPart};
ghost use Rattle.trace_model.specs.Walks as model;

use trace_base::limits::MAX_FIELD;

/// The most that a varint's tenth byte can say within 64 bits.
const TENTH_BYTE_MAX: u8 = 1;

/// What a varint is read for.
#[derive(Clone, Copy, Debug)]
pub(crate) enum VarintOf {
    Tag,
    Number,
    Length,
}

/// What the bytes so far end in.
#[derive(Clone, Copy, Debug)]
pub(crate) enum Part {
    /// Whole fields.
    Between,
    /// A varint: what its bytes so far say, what the next one's place is worth, and how many came.
    InVarint {
        purpose: VarintOf,
        value: u64,
        scale: u64,
        count: u8,
    },
    /// A content, or a number of fixed length, of which so much is to come.
    InContent {
        left: u64,
    },
    /// What is no field.
    Unfit,
    /// A field that is refused.
    Refused,
}

/// Where a walk has come to: how many bytes came, where the last field began, and its number.
#[derive(Clone, Copy, Debug)]
pub(crate) struct Walk {
    pub at: u64,
    pub start: u64,
    pub number: u32,
    pub part: Part,
}

/// Whether writers may not write the field: it is reserved, and not `previous_packet_dropped`. Which
/// numbers these are is said once more here, since the test of each stands in the way of each field.
#[tactic(auto, unfolding(trace_model::specs::Walks::is_refused))]
#[inline(always)]
pub(crate) fn is_refused(number: u32) -> bool
    ensures { result ≡ model.is_refused number }
{
    matches!(number, 3 | 10 | 33 | 35 | 36 | 50 | 79)
}

/// The walk where a field has ended.
#[inline(always)]
pub(crate) fn field_ended(walk: Walk) -> Walk
    ensures walk { walk_of result ≡ model.field_ended (walk_of walk) }
    ensures at { result.at ≡ walk.at }
    ensures part { IsPart result.part }
{
    if is_refused(walk.number) {
        walk_in(walk, Part::Refused)
    } else {
        walk_in(walk, Part::Between)
    }
}

/// The same place in another part.
#[inline(always)]
fn walk_in(walk: Walk, part: Part) -> Walk
    ensures at { result.at ≡ walk.at }
    ensures start { result.start ≡ walk.start }
    ensures number { result.number ≡ walk.number }
    ensures part { result.part ≡ part }
{
    Walk {
        at: walk.at,
        start: walk.start,
        number: walk.number,
        part,
    }
}

/// The walk where so much of a content is to come.
#[inline(always)]
pub(crate) fn content_left(left: u64, walk: Walk) -> Walk
    ensures walk { walk_of result ≡ model.content_left left (walk_of walk) }
    ensures at { result.at ≡ walk.at }
    ensures part { IsPart result.part }
{
    if left == 0 {
        field_ended(walk)
    } else {
        walk_in(walk, Part::InContent { left })
    }
}

/// What a value of this wire type begins with.
fn value_begun(wire: u64) -> Part
    ensures value { part_of result ≡ model.value_begun wire }
    ensures part { IsPart result }
{
    match wire {
        0 => Part::InVarint {
            purpose: VarintOf::Number,
            value: 0,
            scale: 1,
            count: 0,
        },
        1 => Part::InContent { left: 8 },
        2 => Part::InVarint {
            purpose: VarintOf::Length,
            value: 0,
            scale: 1,
            count: 0,
        },
        5 => Part::InContent { left: 4 },
        _ => Part::Unfit,
    }
}

/// The walk where a tag has ended.
#[tactic(auto, unfolding(trace_model::specs::Walks::is_number))]
fn tag_ended(tag: u64, walk: Walk) -> Walk
    ensures walk { walk_of result ≡ model.tag_ended tag (walk_of walk) }
    ensures at { result.at ≡ walk.at }
    ensures part { IsPart result.part }
{
    let number = tag / 8;
    if number == 0 || number > u64::from(MAX_FIELD) {
        return walk_in(walk, Part::Unfit);
    }
    Walk {
        at: walk.at,
        start: walk.start,
        number: number as u32,
        part: value_begun(tag % 8),
    }
}

/// The walk where a varint has ended.
fn varint_ended(purpose: VarintOf, value: u64, walk: Walk) -> Walk
    ensures walk { walk_of result ≡ model.varint_ended (purpose_of purpose) value (walk_of walk) }
    ensures at { result.at ≡ walk.at }
    ensures part { IsPart result.part }
{
    match purpose {
        VarintOf::Tag => tag_ended(value, walk),
        VarintOf::Number => field_ended(walk),
        VarintOf::Length => content_left(value, walk),
    }
}

/// The walk with one byte more of a varint.
#[tactic(auto, using(crate::proofs::StepLemmas::varint_steps))]
fn varint_more(purpose: VarintOf, value: u64, scale: u64, count: u8, byte: u8, walk: Walk) -> Walk
    requires varint { IsVarintPart value scale count }
    ensures walk { walk_of result ≡ model.varint_more (purpose_of purpose) value count byte (walk_of walk) }
    ensures at { result.at ≡ walk.at }
    ensures part { IsPart result.part }
{
    if count == 9 && byte > TENTH_BYTE_MAX {
        return walk_in(walk, Part::Unfit);
    }
    let value = value + scale * u64::from(byte % 128);
    if byte < 128 {
        return varint_ended(purpose, value, walk);
    }
    walk_in(
        walk,
        Part::InVarint {
            purpose,
            value,
            scale: scale * 128,
            count: count + 1,
        },
    )
}

/// The walk with one byte more.
pub(crate) fn step(walk: Walk, byte: u8) -> Walk
    requires part { IsPart walk.part }
    requires room { walk.at < 2 ^ 63 }
    ensures walk { walk_of result ≡ model.step (walk_of walk) byte }
    ensures at { result.at ≡ walk.at + 1 }
    ensures part { IsPart result.part }
{
    let at = walk.at + 1;
    match walk.part {
        Part::Between => {
            let begun = Walk {
                at,
                start: walk.at,
                number: 0,
                part: Part::Between,
            };
            varint_more(VarintOf::Tag, 0, 1, 0, byte, begun)
        }
        Part::InVarint {
            purpose,
            value,
            scale,
            count,
        } => varint_more(purpose, value, scale, count, byte, walk_to(walk, at)),
        Part::InContent { left } => content_left(left - 1, walk_to(walk, at)),
        Part::Unfit | Part::Refused => walk_to(walk, at),
    }
}

/// The walk at another place.
#[inline(always)]
pub(crate) fn walk_to(walk: Walk, at: u64) -> Walk
    ensures at { result.at ≡ at }
    ensures start { result.start ≡ walk.start }
    ensures number { result.number ≡ walk.number }
    ensures part { result.part ≡ walk.part }
{
    Walk {
        at,
        start: walk.start,
        number: walk.number,
        part: walk.part,
    }
}

/// The walk behind so many bytes of whole fields.
#[inline(always)]
pub(crate) fn walk_behind(at: u64) -> Walk
    ensures walk { walk_of result ≡ spec.walk_behind at }
    ensures at { result.at ≡ at }
    ensures start { result.start ≡ 0 }
    ensures part { IsPart result.part }
{
    Walk {
        at,
        start: 0,
        number: 0,
        part: Part::Between,
    }
}
