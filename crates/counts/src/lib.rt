// Runs of a table of numbers on registers that hold 1s alone: a register is its length, many turns of a small loop are done at once, and
// so are rounds that lead back to where they began.
#![tactic(auto)]

mod steps; // steps.rt: one step, with the turns that begin where it leads
mod stretches; // stretches.rt: the steps of a run, and whole rounds

ghost use Rattle.countable.specs.Countable.{is_countable, Countable};
ghost use Rattle.counts.specs.Counts.{CountsTo, counted_outcome, RanAs};

use crate::stretches::run_lengths;
use countable::is_countable;
pub use countable::no_hash;
use memory::{Position, Run};
use underway::{BIAS, entry, ran, strayed};

// A run of a table that can be run so.
fn run_countable(
    capacities: &[u16],
    lengths: &mut [u16],
    at: Position,
    kinds: &[u8],
    operands: &[u32],
    budget: u32,
) -> Run
    requires { Countable capacities.now lengths.old kinds.now operands.now }
    ensures { RanAs capacities.now at
        (counted_outcome capacities.now lengths.old at kinds.now operands.now budget)
        result lengths.new }
{
    let n = entry(at.place, kinds.len());
    if n == 0 {
        return strayed(at);
    }
    let s = run_lengths(
        capacities,
        lengths,
        kinds,
        operands,
        BIAS + n,
        at.steps,
        budget,
    );
    ran(at.steps, s)
}

// Runs a table of numbers on the lengths of registers that hold 1s alone, where no instruction appends # and the machine can do them all;
// `None` where the table, capacities and lengths are not such that there is a run on lengths.
pub fn run(
    capacities: &[u16],
    lengths: &mut [u16],
    at: Position,
    kinds: &[u8],
    operands: &[u32],
    budget: u32,
) -> Option<Run>
    ensures { CountsTo
        (is_countable capacities.now lengths.old kinds.now operands.now)
        capacities.now lengths.old at
        (counted_outcome capacities.now lengths.old at kinds.now operands.now budget)
        result lengths.new }
{
    if !is_countable(capacities, &*lengths, kinds, operands) {
        return None;
    }
    Some(run_countable(capacities, lengths, at, kinds, operands, budget))
}
