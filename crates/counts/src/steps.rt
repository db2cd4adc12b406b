// A step on lengths, with the turns of a small loop that begin where it leads.
ghost use Rattle.std.specs.Prelude.{◌≡◌, ◌≤◌, ◌<◌, ◌+◌, ◌^◌, length};
ghost use Rattle.countable.specs.Countable.{Countable};
ghost use Rattle.underway.specs.Places.{bias};
ghost use Rattle.counts.specs.Strides.{Taken, Added, after_cases, after_append, Turned, Strode};

use drains::drain;
use underway::BIAS;
use word::Instruction;

// Where some steps lead, and how many they are.
#[derive(Clone, Copy)]
pub struct Stride {
    pub there: usize,
    pub steps: u32,
}

// Takes a 1 from a register, counted from 0. It says whether there was one.
fn take_one(lengths: &mut [u16], r: usize) -> bool
    requires { r < length lengths.old }
    ensures { Taken lengths.old r result lengths.new }
{
    let n = lengths[r];
    if n == 0 {
        return false;
    }
    lengths[r] = n - 1;
    true
}

// Appends a 1 to a register, counted from 0. It says whether there was room.
fn add_one(lengths: &mut [u16], capacities: &[u16], r: usize) -> bool
    requires { (r < length lengths.old) × (length lengths.old ≡ length capacities.now) }
    ensures { Added capacities.now lengths.old r result lengths.new }
{
    let n = lengths[r];
    let capacity = capacities[r];
    if n < capacity {
        lengths[r] = n + 1;
        true
    } else {
        false
    }
}

// The step after a cases.
fn after_cases(took: bool, here: usize) -> Stride
    requires { here < 2 ^ 31 }
    ensures { result ≡ after_cases took here }
{
    let there = if took { here + 2 } else { here + 1 };
    Stride { there, steps: 1 }
}

// The step after an append, or `None` where there was no room: it is full.
fn after_append(room: bool, here: usize) -> Option<Stride>
    requires { here < 2 ^ 31 }
    ensures { result ≡ after_append room here }
{
    if room {
        Some(Stride {
            there: here + 1,
            steps: 1,
        })
    } else {
        None
    }
}

// A step backward, from an instruction n places further on, and the turns that begin where it leads, of so many steps in all.
fn back(
    capacities: &[u16],
    lengths: &mut [u16],
    kinds: &[u8],
    operands: &[u32],
    there: usize,
    n: usize,
    left: u32,
) -> Stride
    requires { 1 ≤ left }
    ensures { Turned capacities.now lengths.old kinds.now operands.now there n left
        result lengths.new }
{
    if there <= BIAS {
        return Stride { there, steps: 1 };
    }
    let turns = drain(
        lengths,
        capacities,
        kinds,
        operands,
        there - BIAS - 1,
        n,
        left - 1,
    );
    Stride {
        there,
        steps: turns + 1,
    }
}

// One step from a place, and the turns that begin where it leads, of so many steps in all; `None` where the step would be full. "The number
// of # in an instruction, 1 to 5, decides its effect"; none is an append of #.
pub fn advance(
    capacities: &[u16],
    lengths: &mut [u16],
    kinds: &[u8],
    operands: &[u32],
    here: usize,
    left: u32,
) -> Option<Stride>
    requires { Countable capacities.now lengths.old kinds.now operands.now
        × (bias < here) × (here ≤ bias + length kinds.now) × (1 ≤ left) }
    ensures { Strode capacities.now lengths.old kinds.now operands.now here left
        result lengths.new }
{
    let i = here - BIAS - 1;
    let kind = kinds[i];
    let operand = operands[i] as usize;
    match kind {
        Instruction::FORWARD => Some(Stride {
            there: here + operand,
            steps: 1,
        }),
        Instruction::BACKWARD => Some(back(
            capacities,
            lengths,
            kinds,
            operands,
            here - operand,
            operand,
            left,
        )),
        Instruction::CASES => Some(after_cases(take_one(lengths, operand - 1), here)),
        _ => after_append(add_one(lengths, capacities, operand - 1), here),
    }
}
