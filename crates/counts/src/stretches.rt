// The steps of a run on lengths, stretch by stretch. Where one leads back to the state that it began in, whole rounds of it are done at
// once.
ghost use Rattle.std.specs.Prelude.{◌≡◌, ◌&&◌, ◌≤◌, ◌<◌, ◌+◌, eqb, length};
ghost use Rattle.theory.specs.Text.{same};
ghost use Rattle.countable.specs.Countable.{Countable};
ghost use Rattle.underway.specs.Places.{bias};
ghost use Rattle.underway.specs.Inside.{Stopped};
ghost use Rattle.counts.specs.Counts.{Counts, lengths_run};
ghost use Rattle.counts.specs.Strides.{Stretched};

use crate::steps::{Stride, advance};
use layout::{capacity_at, wide};
use rounds::{are_same, laid_aside, whole_rounds};
use theory::End;
use underway::{BIAS, Stop, allowance, end_at, goes_on};

// How many steps the first stretch has, where the run goes on so long.
const FIRST: u32 = 1024;

// Whether a run stands where it stood, with the same lengths.
fn is_back(here: usize, mark: usize, lengths: &[u16], marked: &[u16]) -> bool
    ensures { result ≡ (eqb here mark && same lengths.now marked.now) }
{
    if here != mark {
        return false;
    }
    are_same(lengths, marked)
}

// A register, counted from 0, whose length is not the one laid aside: the one that was seen so, if it still is. As many as there are where
// none is. Nothing is promised of it: by what it finds a stretch only ends earlier or later.
fn unlike(lengths: &[u16], aside: &[u16], seen: usize) -> usize {
    if capacity_at(lengths, seen) != capacity_at(aside, seen) {
        return seen;
    }
    for (i, length) in lengths.iter().enumerate() {
        if wide(*length) != capacity_at(aside, i) {
            return i;
        }
    }
    lengths.len()
}

// After how many steps a stretch ends that begins after k, with so many left: it is about as long as all before it, so that each way round
// is met with by and by, however long, and few states are laid aside.
fn until(k: u32, left: u32) -> u32
    requires { 1 ≤ left }
    ensures { (1 ≤ result) × (result ≤ left) }
{
    left.min(k.max(FIRST))
}

// Steps from the place of an instruction, no more than are left: until the run does not go on, enough are done, or it is back where it
// began, with the lengths that were laid aside there. `Err` has where the next step would be full, and after how many.
fn stretch(
    capacities: &[u16],
    lengths: &mut [u16],
    kinds: &[u8],
    operands: &[u32],
    from: usize,
    left: u32,
    enough: u32,
    aside: &[u16],
) -> Result<Stride, Stride>
    requires { Countable capacities.now lengths.old kinds.now operands.now
        × (bias < from) × (from ≤ bias + length kinds.now) × (1 ≤ enough) × (enough ≤ left) }
    ensures { Stretched capacities.now lengths.old kinds.now operands.now from left
        result lengths.new }
{
    let last = BIAS + kinds.len();
    let count = lengths.len();
    let mut here = from;
    let mut k: u32 = 0;
    let mut seen: usize = 0;
    while goes_on(here, last, k, enough) {
        match advance(capacities, lengths, kinds, operands, here, left - k) {
            Some(stride) => {
                here = stride.there;
                k += stride.steps;
                if here == from {
                    seen = unlike(&*lengths, aside, seen);
                    if seen == count {
                        return Ok(Stride {
                            there: here,
                            steps: k,
                        });
                    }
                }
            }
            None => return Err(Stride {
                there: here,
                steps: k,
            }),
        }
    }
    Ok(Stride {
        there: here,
        steps: k,
    })
}

// A stretch; and where it leads back to where it began, as many whole rounds more as there are steps left for.
fn around(
    capacities: &[u16],
    lengths: &mut [u16],
    kinds: &[u8],
    operands: &[u32],
    from: usize,
    left: u32,
    enough: u32,
) -> Result<Stride, Stride>
    requires { Countable capacities.now lengths.old kinds.now operands.now
        × (bias < from) × (from ≤ bias + length kinds.now) × (1 ≤ enough) × (enough ≤ left) }
    ensures { Stretched capacities.now lengths.old kinds.now operands.now from left
        result lengths.new }
{
    let count = lengths.len();
    let cells = laid_aside(&*lengths);
    let aside = &cells[..count];
    let mut s = stretch(
        capacities,
        &mut *lengths,
        kinds,
        operands,
        from,
        left,
        enough,
        aside,
    )?;
    if is_back(s.there, from, &*lengths, aside) {
        s.steps += whole_rounds(s.steps, left - s.steps);
    }
    Ok(s)
}

// The steps of a run, from a place of the instructions or right behind them.
pub fn run_lengths(
    capacities: &[u16],
    lengths: &mut [u16],
    kinds: &[u8],
    operands: &[u32],
    from: usize,
    steps: u32,
    budget: u32,
) -> Stop
    requires { Countable capacities.now lengths.old kinds.now operands.now × (from ≤ bias + length kinds.now + 1) }
    ensures { Stopped (Counts capacities.now lengths.new)
        (lengths_run capacities.now lengths.old kinds.now operands.now from steps budget) result }
{
    let last = BIAS + kinds.len();
    let allowed = allowance(budget, steps);
    let mut here = from;
    let mut k: u32 = 0;
    while goes_on(here, last, k, allowed) {
        let left = allowed - k;
        match around(
            capacities,
            lengths,
            kinds,
            operands,
            here,
            left,
            until(k, left),
        ) {
            Ok(s) => {
                here = s.there;
                k += s.steps;
            }
            Err(s) => {
                return Stop {
                    end: End::Full,
                    steps: k + s.steps,
                    here: s.there,
                };
            }
        }
    }
    let end = end_at(here, last);
    Stop {
        end,
        steps: k,
        here,
    }
}
