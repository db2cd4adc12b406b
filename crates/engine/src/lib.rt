// The text register machine on instructions as numbers: a run of a lent table on a lent store, and the rules before it.
#![tactic(auto)]

ghost use Rattle.std.specs.Prelude.{◌≡◌};
ghost use Rattle.word.specs.Answers.{zipped};
ghost use Rattle.memory.specs.Calls.{memory, handed, table_called};

use memory::{Position, Run};
use precedence::turned_down;

// Runs a table of numbers on a machine: rules 10, then 11, 13, 14 and 15, whose places are entries. A number that is missing counts as 0.
pub fn run_numbers(
    capacities: &[u16],
    store: &mut [u8],
    lengths: &mut [u16],
    at: Position,
    kinds: &[u8],
    operands: &[u32],
    budget: u32,
) -> Run
    ensures { handed result store.new lengths.new
        ≡ table_called (memory capacities.now store.old lengths.old) at budget
        (zipped kinds.now operands.now) }
{
    match table::check(kinds, operands) {
        Ok(_) => runs::run(capacities, store, lengths, at, kinds, operands, budget),
        Err(r) => turned_down(capacities, store, lengths, at, r),
    }
}
