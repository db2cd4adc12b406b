// Runs of a table of numbers whose instructions the machine can do, on a lent store.
#![tactic(auto)]

mod effect;
mod runs;
mod store;

ghost use Rattle.std.specs.Prelude.{◌≡◌};
ghost use Rattle.word.specs.Answers.{zipped};
ghost use Rattle.memory.specs.Calls.{memory, handed, refused_at};
ghost use Rattle.rings.specs.Calls.{usable_called};

use crate::runs::run_usable;
use memory::{Position, Run};
use rule10::is_memory;
use theory::refused;
use usable::first_unusable;

// A call that a rule turns down.
fn turned_down(at: Position, number: u32, place: usize) -> Run
    ensures { result ≡ refused_at at (record { number = number; place = place }) }
{
    Run {
        position: at,
        ended: refused(number, place),
    }
}

// Runs a table of numbers on a machine: rule 10, and then 15 at the first entry that the machine cannot do. A number that is missing counts
// as 0.
pub fn run(
    capacities: &[u16],
    store: &mut [u8],
    lengths: &mut [u16],
    at: Position,
    kinds: &[u8],
    operands: &[u32],
    budget: u32,
) -> Run
    ensures { handed result store.new lengths.new
        ≡ usable_called (memory capacities.now store.old lengths.old) at budget
        (zipped kinds.now operands.now) }
{
    if !is_memory(capacities, store, lengths) {
        return turned_down(at, 10, 0);
    }
    match first_unusable(capacities.len(), kinds, operands) {
        Some(i) => turned_down(at, 15, i),
        None => run_usable(capacities, store, lengths, at, kinds, operands, budget),
    }
}
