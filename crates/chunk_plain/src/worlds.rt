//! The world of a table, as a value of no bytes. Only clauses read it.
ghost use Rattle.std.specs.Prelude.{◌≡◌};
ghost use Rattle.chunk_plain.specs.World.{World};
ghost use Rattle.chunk_plain.specs.Plain.{first_world, world_after};

use crate::layout::Layout;
use crate::step::Step;
use std::marker::{Model, PhantomData};

/// A world that is told. It owns nothing, and may be any world: what ties it to words and slots is
/// what the table keeps that has it.
#[derive(Drop)]
pub struct ToldWorld {
    marker: PhantomData<u8>,
    pub ghost world: { World },
}

impl Model for ToldWorld {
    ghost use base.Fml.{ftrue};

    ghost also_owns = { λ _. ftrue };
}

impl ToldWorld {
    /// The world in which nobody has done anything.
    pub fn first(layout: &Layout) -> ToldWorld
        ensures { result.world ≡ first_world layout.now }
    {
        let _ = layout;
        ToldWorld {
            marker: PhantomData,
        }
    }

    /// The world behind the step.
    pub fn behind(&self, step: &Step<'_>) -> ToldWorld
        ensures { result.world ≡ world_after self.now.world step.now }
    {
        let _ = self;
        let _ = step;
        ToldWorld {
            marker: PhantomData,
        }
    }
}

/// Makes the step in the world that is told.
pub fn make_step(told: &mut ToldWorld, step: &Step<'_>)
    ensures world { told.new.world ≡ world_after told.old.world step.now }
{
    *told = told.behind(step);
}
