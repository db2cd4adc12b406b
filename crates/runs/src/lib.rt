// A run of a table of numbers, by one of two loops. Where no instruction appends # and every register holds 1s alone, as with every word of
// a program on fresh registers, a register is its length: the run goes on lengths, many turns of a small loop at once, and the store is
// written at its end. Any other goes step by step on the store.
#![tactic(auto)]

ghost use Rattle.std.specs.Prelude.{◌≡◌, true, ◌&&◌};
ghost use Rattle.theory.specs.Basics.{all};
ghost use Rattle.word.specs.Answers.{zipped};
ghost use Rattle.memory.specs.Calls.{memory, handed};
ghost use Rattle.rings.specs.Calls.{usable_called};
ghost use Rattle.ones.specs.Ones.{holds_ones};
ghost use Rattle.countable.specs.Countable.{no_2};
ghost use Rattle.runs.specs.Chosen.{RanOnes};

use countable::no_hash;
use memory::{Position, Run};
use ones::{are_ones, lay_ones};
use rounds::laid_aside;

// Whether a run goes on lengths. The kinds are asked first: they are fewer than the bytes of the store.
fn has_ones(capacities: &[u16], store: &[u8], lengths: &[u16], kinds: &[u8]) -> bool
    ensures { result ≡ (all no_2 kinds.now
        && holds_ones (memory capacities.now store.now lengths.now)) }
{
    if !no_hash(kinds) {
        return false;
    }
    are_ones(capacities, store, lengths)
}

// A run on lengths, the store written at its end; `None` where the table is none that can be run so, and nothing changes.
fn run_ones(
    capacities: &[u16],
    store: &mut [u8],
    lengths: &mut [u16],
    at: Position,
    kinds: &[u8],
    operands: &[u32],
    budget: u32,
) -> Option<Run>
    requires { holds_ones (memory capacities.now store.old lengths.old) ≡ true }
    ensures { RanOnes (memory capacities.now store.old lengths.old) at budget
        (zipped kinds.now operands.now) result store.new lengths.new }
{
    let before = laid_aside(&*lengths);
    let count = lengths.len();
    let counted = counts::run(capacities, &mut *lengths, at, kinds, operands, budget);
    lay_ones(capacities, store, &before[..count], &*lengths);
    counted
}

// Runs a table of numbers on a machine: rule 10, and then 15 at the first entry that the machine cannot do. A number that is missing counts
// as 0.
pub fn run(
    capacities: &[u16],
    store: &mut [u8],
    lengths: &mut [u16],
    at: Position,
    kinds: &[u8],
    operands: &[u32],
    budget: u32,
) -> Run
    ensures { handed result store.new lengths.new
        ≡ usable_called (memory capacities.now store.old lengths.old) at budget
        (zipped kinds.now operands.now) }
{
    if !has_ones(capacities, &*store, &*lengths, kinds) {
        return rings::run(capacities, store, lengths, at, kinds, operands, budget);
    }
    match run_ones(
        capacities,
        &mut *store,
        &mut *lengths,
        at,
        kinds,
        operands,
        budget,
    ) {
        Some(r) => r,
        None => rings::run(capacities, store, lengths, at, kinds, operands, budget),
    }
}
