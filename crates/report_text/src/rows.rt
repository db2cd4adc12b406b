// The runs of a row: the word's from fresh registers, and the source's from a fresh state of the same values.
ghost use Rattle.std.specs.Prelude.{◌≡◌, List, ℕ, ◌≤◌, length, get_or};
ghost use Rattle.theory.specs.Limits.{state_values, most_capacity};
ghost use Rattle.theory.specs.ProgramText.{Command, variables as variables-of};
ghost use Rattle.theory.specs.Translation.{word_text};
ghost use Rattle.theory.specs.TurnedDown.{word_entries};
ghost use Rattle.theory.specs.RunTool.{word_on};
ghost use Rattle.theory.specs.Claims.{Accepted};
ghost use Rattle.theory.specs.ProgramText.{commands};
ghost use Rattle.word.specs.Answers.{zipped};
ghost use Rattle.capacities.specs.Room.{of_variables};
ghost use Rattle.report_text.specs.Fresh.{values_of, IsSet, Starts};
ghost use Rattle.report_text.specs.Rows.{run_ended, ended_of, Tabled, Ran};

use printing::Row;
use registers::Machine;
use source::State;
use theory::{End, Ended, Refusal, Setting};

// "budget 100,000 for the source and 1,000,000 for the word"
const SOURCE_BUDGET: u32 = 100000;

const WORD_BUDGET: u32 = 1000000;

// What stands in for a run that does not come.
const NO_RUN: Ended = Ended {
    end: End::Spent,
    steps: 0,
};

// How a run ended. A refusal does not come: a word of the translation passes every rule, and a fresh state of values within the capacity
// passes rule 9.
fn of_run(ended: Result<Ended, Refusal>) -> Ended
    ensures { result ≡ run_ended ended }
{
    ended.unwrap_or(NO_RUN)
}

// The lengths of registers that hold the values: the variables' are the first, and the others are empty.
fn lengths_of(values: &[u32]) -> [u16; Machine::REGISTERS]
    requires { (length values.now ≤ state_values) × ((i : ℕ) → values_of values.now i ≤ most_capacity) }
    ensures { (i : ℕ) → get_or result i 0 ≡ values_of values.now i }
{
    let mut lengths = [0u16; Machine::REGISTERS];
    for (i, value) in values.iter().enumerate() {
        lengths[i] = *value as u16;
    }
    lengths
}

// The word's run, on lengths alone: no instruction of a program's word appends #, and the machine can do them all, so that there always is
// such a run.
fn run_word(capacities: &[u16], kinds: &[u8], operands: &[u32], values: &[u32]) -> Ended
    requires { IsSet capacities.now × Starts (length values.now) capacities.now values.now }
    ensures { (p : List Command) → Accepted p → zipped kinds.now operands.now ≡ word_entries (word_text p)
        → length values.now ≡ variables-of p
        → result ≡ ended_of (word_on capacities.now p (values_of values.now)) }
{
    let mut lengths = lengths_of(values);
    let at = memory::Position::fresh();
    match counts::run(capacities, &mut lengths, at, kinds, operands, WORD_BUDGET) {
        Some(run) => {
            let ended = run.ended;
            of_run(ended)
        }
        None => NO_RUN,
    }
}

// Both runs of a row, on registers of these capacities, of which the first are the limits of the variables.
pub fn run_row(
    list: &[u8],
    kinds: &[u8],
    operands: &[u32],
    variables: usize,
    capacities: &[u16],
    limits: [u32; State::VALUES],
    values: [u32; State::VALUES],
) -> Row
    requires { Tabled list.now kinds.now operands.now variables × IsSet capacities.now
        × (limits ≡ of_variables capacities.now) × Starts variables capacities.now values }
    ensures { Ran capacities.now (commands list.now) (values_of values) result }
{
    let fresh = State::fresh(limits, values);
    let run = source::run_list(Setting::Any, list, fresh, SOURCE_BUDGET);
    let ended = run.ended;
    let state = run.state;
    let last = state.values;
    let source = of_run(ended);
    let word = run_word(capacities, kinds, operands, &values[..variables]);
    Row {
        source,
        word,
        first: last[0],
    }
}
