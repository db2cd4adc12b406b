// A step at a line of a program, and the steps of a run.
ghost use Rattle.std.specs.Prelude.{◌≡◌, get_or};
ghost use Rattle.source_state.specs.Numbers.{stored};
ghost use Rattle.source.specs.Lines.{Storing, Put, Leading, Left, Ready, Stepped, Startable, run_at, outcome_of};
ghost use Rattle.theory.specs.ProgramText.{commands};

use command::COPY;
use source_state::{lead, store};
use theory::End;

// Where the steps stopped, how many they were, and why.
#[derive(Clone, Copy)]
pub struct Stop {
    pub line: u32,
    pub taken: u32,
    pub end: End,
}

// Does a plain command on its variables: the next line, or `None` where the step would be full. A full step changes nothing.
fn store_in(
    values: &mut [u32],
    capacities: &[u32],
    kind: u8,
    i: usize,
    j: usize,
    next: u32,
) -> Option<u32>
    requires { Storing values.old capacities.now i j }
    ensures { Put (stored kind (get_or values.old i 0) (get_or values.old j 0) (get_or capacities.now i 0))
        next i values.old result values.new }
{
    let v = store(kind, values[i], values[j], capacities[i])?;
    values[i] = v;
    Some(next)
}

// Does a line of a pair on its entry of the passes-left, by what its variable holds: the next line.
fn lead_on(
    passes: &mut [u32],
    targets: &[u16],
    entries: &[u8],
    kind: u8,
    held: u32,
    line: u32,
) -> u32
    requires { Leading passes.old targets.now entries.now line }
    ensures { Left targets.now entries.now kind held line passes.old result passes.new }
{
    let here = line as usize - 1;
    let target = u32::from(targets[here]);
    let d = usize::from(entries[here]);
    let led = lead(kind, held, passes[d], line + 1, target);
    passes[d] = led.left;
    led.line
}

// A step at a line of the program: the next line, or `None` where the step would be full.
fn step(
    list: &[u8],
    targets: &[u16],
    entries: &[u8],
    capacities: &[u32],
    line: u32,
    values: &mut [u32],
    passes: &mut [u32],
) -> Option<u32>
    requires { Ready list.now targets.now entries.now capacities.now line values.old passes.old }
    ensures { Stepped (commands list.now) capacities.now line
        values.old passes.old result values.new passes.new }
{
    let at = 3 * (line as usize - 1);
    let kind = list[at];
    let i = usize::from(list[at + 1]);
    if kind <= COPY {
        let j = usize::from(list[at + 2]);
        return store_in(values, capacities, kind, i, j, line + 1);
    }
    Some(lead_on(passes, targets, entries, kind, values[i], line))
}

// Steps until the line after the last, until so many are taken, or until one is full.
pub fn walk(
    list: &[u8],
    targets: &[u16],
    entries: &[u8],
    lines: usize,
    capacities: &[u32],
    from: u32,
    allowed: u32,
    values: &mut [u32],
    passes: &mut [u32],
) -> Stop
    requires { Startable list.now targets.now entries.now capacities.now lines from values.old passes.old }
    ensures { run_at list.now capacities.now from values.old passes.old allowed
        ≡ outcome_of result values.new passes.new }
{
    let last = lines as u32;
    let mut line = from;
    let mut taken = 0;
    while line <= last {
        if taken == allowed {
            return Stop {
                line,
                taken,
                end: End::Spent,
            };
        }
        match step(list, targets, entries, capacities, line, values, passes) {
            Some(next) => line = next,
            None => return Stop {
                line,
                taken,
                end: End::Full,
            },
        }
        taken += 1;
    }
    Stop {
        line,
        taken,
        end: End::Halted,
    }
}
