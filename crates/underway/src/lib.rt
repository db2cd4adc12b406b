// Where a run of a table stands between its steps: its place as a number, how many steps it may do, and how it ends. What runs on rings and
// runs on lengths share.
#![tactic(auto)]

ghost use Rattle.std.specs.Prelude.{◌≡◌, ◌<◌, ◌^◌, min, pos, neg_ℤ};
ghost use Rattle.memory.specs.Calls.{stands_outside};
ghost use Rattle.underway.specs.Places.{number_of, entry_of, placed, most_place};
ghost use Rattle.underway.specs.Ends.{Allowance, goes_on, end_at, total, ran_to};

use memory::{Position, Run};
use theory::{End, Ended};

// Inside a run a place is kept as a number so much higher, so that it never falls below 0.
pub const BIAS: usize = 1000000;

const MOST: usize = 2147483647;

// Where a run inside stopped, how, and after how many steps.
#[derive(Clone, Copy)]
pub struct Stop {
    pub end: End,
    pub steps: u32,
    pub here: usize,
}

// The number of a place that is not negative, else 0.
fn number(place: i32) -> usize
    ensures { result ≡ number_of place }
{
    if place < 0 { 0 } else { place as usize }
}

// The number of a place at an instruction of so many or right behind them, else 0.
pub fn entry(place: i32, size: usize) -> usize
    ensures { result ≡ entry_of place size }
{
    let n = number(place);
    if n < 1 {
        return 0;
    }
    if size < n - 1 { 0 } else { n }
}

// A place that is a number.
fn ahead(n: usize) -> i32
    requires { n < 2 ^ 31 }
    ensures { result ≡ pos n }
{
    n as i32
}

// A place that is so much below 0.
fn below(n: usize) -> i32
    requires { n < 2 ^ 31 }
    ensures { result ≡ neg_ℤ (pos n) }
{
    -(n as i32)
}

// The place that a run keeps as a number. One that no place can be is taken as the largest.
fn place_of(here: usize) -> i32
    ensures { result ≡ placed (min here most_place) }
{
    let near = here.min(MOST);
    if BIAS <= near {
        ahead(near - BIAS)
    } else {
        below(BIAS - near)
    }
}

// How many steps a run may do: the budget, or what its count has left.
pub fn allowance(budget: u32, steps: u32) -> u32
    ensures { Allowance budget steps result }
{
    let left = Position::STEPS - steps;
    if budget <= left { budget } else { left }
}

// Whether a run goes on. "Checked before each step: halted or strayed, then spent, then full".
pub fn goes_on(here: usize, last: usize, k: u32, allowed: u32) -> bool
    ensures { result ≡ goes_on here last k allowed }
{
    if here <= BIAS {
        return false;
    }
    if last < here {
        return false;
    }
    k < allowed
}

// How a run has ended that does not go on.
pub fn end_at(here: usize, last: usize) -> End
    ensures { result ≡ end_at here last }
{
    if here <= BIAS {
        return End::Strayed;
    }
    if here <= last {
        return End::Spent;
    }
    if here - last == 1 {
        End::Halted
    } else {
        End::Strayed
    }
}

// A run that does no step, since it stands outside.
pub fn strayed(at: Position) -> Run
    ensures { result ≡ stands_outside at }
{
    Run {
        position: at,
        ended: Ok(Ended {
            end: End::Strayed,
            steps: 0,
        }),
    }
}

// A count and so many steps more, no more than there are counts for.
fn counted(steps: u32, more: u32) -> u32
    ensures { result ≡ total steps more }
{
    if more <= Position::STEPS - steps {
        steps + more
    } else {
        Position::STEPS
    }
}

// A run that began after so many steps and stopped.
pub fn ran(steps: u32, s: Stop) -> Run
    ensures { result ≡ ran_to steps s }
{
    let end = s.end;
    let taken = s.steps;
    let place = place_of(s.here);
    let steps = counted(steps, taken);
    Run {
        position: Position { place, steps },
        ended: Ok(Ended { end, steps: taken }),
    }
}
