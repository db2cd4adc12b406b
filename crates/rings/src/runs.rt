// A run of instructions that the machine can do.
ghost use Rattle.std.specs.Prelude.{◌≡◌, true, ◌≤◌, ◌+◌, length};
ghost use Rattle.theory.specs.Machines.{is_memory};
ghost use Rattle.theory.specs.TurnedDown.{done};
ghost use Rattle.word.specs.Answers.{zipped};
ghost use Rattle.memory.specs.Calls.{memory, handed, called};
ghost use Rattle.underway.specs.Places.{bias};
ghost use Rattle.underway.specs.Inside.{Usables, Stopped};
ghost use Rattle.rings.specs.Ring.{Offsets, Ring, Zeros};
ghost use Rattle.rings.specs.Steps.{run_from};

use crate::effect::perform;
use layout::offsets;
use memory::{Position, Run};
use order::put_in_order;
use registers::Machine;
use theory::End;
use underway::{BIAS, Stop, allowance, end_at, entry, goes_on, ran, strayed};

// A run from a place of the instructions, or right behind them, on registers as rings.
fn run_rings(
    store: &mut [u8],
    lengths: &mut [u16],
    starts: &mut [usize],
    offsets: &[usize],
    capacities: &[u16],
    kinds: &[u8],
    operands: &[u32],
    from: usize,
    steps: u32,
    budget: u32,
) -> Stop
    requires { (is_memory (memory capacities.now store.old lengths.old) ≡ true)
        × Zeros (length capacities.now) starts.old × Usables (length capacities.now) kinds.now operands.now
        × (from ≤ bias + length kinds.now + 1) × Offsets capacities.now offsets.now }
    ensures { Stopped (λ f. Ring capacities.now f store.new lengths.new starts.new)
        (run_from kinds.now operands.now
        (memory capacities.now store.old lengths.old) from steps budget) result }
{
    let last = BIAS + kinds.len();
    let allowed = allowance(budget, steps);
    let mut here = from;
    let mut k: u32 = 0;
    // A while, since where the run stands ends it as well as the count of its steps.
    while goes_on(here, last, k, allowed) {
        let i = here - BIAS - 1;
        match perform(
            store,
            lengths,
            starts,
            offsets,
            capacities,
            kinds[i],
            operands[i] as usize,
            here,
        ) {
            Some(there) => here = there,
            None => {
                return Stop {
                    end: End::Full,
                    steps: k,
                    here,
                };
            }
        }
        k += 1;
    }
    let end = end_at(here, last);
    Stop {
        end,
        steps: k,
        here,
    }
}

// A run of instructions that the machine can do; the registers are put in order at its end.
pub fn run_usable(
    capacities: &[u16],
    store: &mut [u8],
    lengths: &mut [u16],
    at: Position,
    kinds: &[u8],
    operands: &[u32],
    budget: u32,
) -> Run
    requires { (is_memory (memory capacities.now store.old lengths.old) ≡ true)
        × Usables (length capacities.now) kinds.now operands.now }
    ensures { handed result store.new lengths.new
        ≡ called (memory capacities.now store.old lengths.old) at budget
        (done (zipped kinds.now operands.now)) }
{
    let n = entry(at.place, kinds.len());
    if n == 0 {
        return strayed(at);
    }
    let places = offsets(capacities);
    let mut starts = [0usize; Machine::REGISTERS];
    let s = run_rings(
        store,
        lengths,
        &mut starts,
        &places,
        capacities,
        kinds,
        operands,
        BIAS + n,
        at.steps,
        budget,
    );
    put_in_order(store, &starts, capacities);
    ran(at.steps, s)
}
