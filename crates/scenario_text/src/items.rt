//! Things that lines name by their number in the order of their set-up lines, counted from 1.
ghost use Rattle.std.specs.Prelude.{◌≡◌};
ghost use Rattle.scenario_text.specs.Items.{item, with_item};

use trace_base::numeral::Numeral;

/// The thing with this number, if there is one.
#[tactic(auto, unfolding(crate::specs::Items::item))]
pub fn item<T: Copy>(things: &[T], number: Numeral) -> Option<T>
    ensures { result ≡ item things.now number }
{
    match number {
        Numeral::Fits(0) => None,
        Numeral::Fits(n) => things.get((n - 1) as usize).copied(),
        Numeral::TooLarge => None,
    }
}

/// Puts another thing in the place of the one with this number, if there is one.
#[tactic(auto, unfolding(crate::specs::Items::with_item), using(crate::proofs::ItemLemmas::set_past))]
pub fn put_item<T: Copy>(things: &mut Vec<T>, number: Numeral, thing: T)
    ensures { things.new.items ≡ with_item things.old.items number thing }
{
    let Numeral::Fits(n) = number else {
        return;
    };
    if n == 0 || n > things.len() as u64 {
        return;
    }
    things[(n - 1) as usize] = thing;
}
