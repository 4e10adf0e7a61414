//! The table as its steps see it: four kinds of atomic step, each told what it does by a `Move`.
ghost use Rattle.std.specs.Prelude.{◌≡◌, ℕ, ◌<◌, Some, None, [], bit_and, bit_or, vec_len};
ghost use Rattle.atomic_table.specs.Table.{Allows};
ghost use Rattle.layout_tuner.specs.Knows.{Knows, Spent};
ghost use Rattle.layout_tuner.specs.Plays.{After};
ghost use Rattle.layout_tuner.specs.Rule.{IsTuned};

use crate::moves::Move;
use crate::table::Shape;
use atomic_table::{Play, Seat, Shared, TableRule};
use std::marker::{Brand, Model, PhantomData};

/// What a seat knows. No value of it is made.
pub struct Knowledge {}

impl Model for Knowledge {
    ghost use Rattle.layout_tuner.specs.Knows.{Knows, Spent};

    ghost Value = { Knows };

    ghost view = { λ _. Spent };
}

/// The rule of the table: who has each chunk of each page, between any two steps.
pub struct TuneRule {}

impl TableRule<u8, Knowledge, Shape> for TuneRule {
    ghost use Rattle.layout_tuner.specs.Rule.{IsTuned, first_of};

    ghost holds = { IsTuned };

    ghost first = { first_of };
}

pub type PageTable = Shared<u8, Knowledge, Shape, TuneRule>;

pub type PageSeat = Seat<u8, Knowledge>;

/// A step that is known in proofs alone.
trait Target {
    ghost use Rattle.layout_tuner.specs.declared.moves.Move.{Move};

    ghost step: { Move };
}

impl Target for Brand {
    ghost use Rattle.layout_tuner.specs.declared.moves.Move.TheVariants.{Give};

    ghost step = { Give 0 0 };
}

struct Makes<N> {
    of: PhantomData<N>,
}

impl<N: Target> Play<u8, Knowledge> for Makes<N> {
    ghost use Rattle.layout_tuner.specs.Plays.{After};

    ghost then = { λ _ me found new. After N.step me found new };
}

fn or_for<N: Target>(
    table: &PageTable,
    seat: &mut PageSeat,
    word: usize,
    mask: u64,
    step: &Move,
) -> u64
    requires target { N.step ≡ step.now }
    requires seat { seat.old.table_id ≡ table.now.table_id }
    requires word { word < table.now.table_id.words }
    requires allowed { Allows (IsTuned table.now.key) table.now.table_id.slots seat.old.id seat.old.me word
        (λ found. bit_or found mask) (After step.now seat.old.me) }
    ensures seat { seat.new.table_id ≡ seat.old.table_id }
    ensures after { After step.now seat.old.me result seat.new.me }
{
    // The step is picked in the proof, and no code reads it.
    let _ = step;
    table.fetch_or::<Makes<N>>(seat, word, mask)
}

/// Sets the bits of a mask in a word.
pub(crate) fn make_or(
    table: &PageTable,
    seat: &mut PageSeat,
    word: usize,
    mask: u64,
    step: &Move,
) -> u64
    requires seat { seat.old.table_id ≡ table.now.table_id }
    requires word { word < table.now.table_id.words }
    requires allowed { Allows (IsTuned table.now.key) table.now.table_id.slots seat.old.id seat.old.me word
        (λ found. bit_or found mask) (After step.now seat.old.me) }
    ensures seat { seat.new.table_id ≡ seat.old.table_id }
    ensures after { After step.now seat.old.me result seat.new.me }
{
    or_for::<Brand>(table, seat, word, mask, step)
}

fn and_for<N: Target>(
    table: &PageTable,
    seat: &mut PageSeat,
    word: usize,
    mask: u64,
    step: &Move,
) -> u64
    requires target { N.step ≡ step.now }
    requires seat { seat.old.table_id ≡ table.now.table_id }
    requires word { word < table.now.table_id.words }
    requires allowed { Allows (IsTuned table.now.key) table.now.table_id.slots seat.old.id seat.old.me word
        (λ found. bit_and found mask) (After step.now seat.old.me) }
    ensures seat { seat.new.table_id ≡ seat.old.table_id }
    ensures after { After step.now seat.old.me result seat.new.me }
{
    // The step is picked in the proof, and no code reads it.
    let _ = step;
    table.fetch_and::<Makes<N>>(seat, word, mask)
}

/// Clears the bits of a word that a mask doesn't have.
pub(crate) fn make_and(
    table: &PageTable,
    seat: &mut PageSeat,
    word: usize,
    mask: u64,
    step: &Move,
) -> u64
    requires seat { seat.old.table_id ≡ table.now.table_id }
    requires word { word < table.now.table_id.words }
    requires allowed { Allows (IsTuned table.now.key) table.now.table_id.slots seat.old.id seat.old.me word
        (λ found. bit_and found mask) (After step.now seat.old.me) }
    ensures seat { seat.new.table_id ≡ seat.old.table_id }
    ensures after { After step.now seat.old.me result seat.new.me }
{
    and_for::<Brand>(table, seat, word, mask, step)
}

fn store_for<N: Target>(
    table: &PageTable,
    seat: &mut PageSeat,
    word: usize,
    value: u64,
    step: &Move,
)
    requires target { N.step ≡ step.now }
    requires seat { seat.old.table_id ≡ table.now.table_id }
    requires word { word < table.now.table_id.words }
    requires allowed { Allows (IsTuned table.now.key) table.now.table_id.slots seat.old.id seat.old.me word
        (λ _. value) (λ _. After step.now seat.old.me value) }
    ensures seat { seat.new.table_id ≡ seat.old.table_id }
    ensures after { After step.now seat.old.me value seat.new.me }
{
    // The step is picked in the proof, and no code reads it.
    let _ = step;
    table.store::<Makes<N>>(seat, word, value);
}

/// Stores a word.
pub(crate) fn make_store(
    table: &PageTable,
    seat: &mut PageSeat,
    word: usize,
    value: u64,
    step: &Move,
)
    requires seat { seat.old.table_id ≡ table.now.table_id }
    requires word { word < table.now.table_id.words }
    requires allowed { Allows (IsTuned table.now.key) table.now.table_id.slots seat.old.id seat.old.me word
        (λ _. value) (λ _. After step.now seat.old.me value) }
    ensures seat { seat.new.table_id ≡ seat.old.table_id }
    ensures after { After step.now seat.old.me value seat.new.me }
{
    store_for::<Brand>(table, seat, word, value, step);
}

fn load_for<N: Target>(table: &PageTable, seat: &mut PageSeat, word: usize, step: &Move) -> u64
    requires target { N.step ≡ step.now }
    requires seat { seat.old.table_id ≡ table.now.table_id }
    requires word { word < table.now.table_id.words }
    requires allowed { Allows (IsTuned table.now.key) table.now.table_id.slots seat.old.id seat.old.me word
        (λ found. found) (After step.now seat.old.me) }
    ensures seat { seat.new.table_id ≡ seat.old.table_id }
    ensures after { After step.now seat.old.me result seat.new.me }
{
    // The step is picked in the proof, and no code reads it.
    let _ = step;
    table.load::<Makes<N>>(seat, word)
}

/// Loads a word.
pub(crate) fn make_load(table: &PageTable, seat: &mut PageSeat, word: usize, step: &Move) -> u64
    requires seat { seat.old.table_id ≡ table.now.table_id }
    requires word { word < table.now.table_id.words }
    requires allowed { Allows (IsTuned table.now.key) table.now.table_id.slots seat.old.id seat.old.me word
        (λ found. found) (After step.now seat.old.me) }
    ensures seat { seat.new.table_id ≡ seat.old.table_id }
    ensures after { After step.now seat.old.me result seat.new.me }
{
    load_for::<Brand>(table, seat, word, step)
}
