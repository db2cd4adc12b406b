// The source interpreter of document 01 ("The program text", "Machines of the set"): a program, as text or as a list of three numbers a
// command, run from a state with a budget. Rules 1 to 8 (3 to 8 for a list), then 9.
#![tactic(auto)]

mod lines; // lines.rt: where the lines of pairs lead
mod rule9; // rule9.rt: whether a state is one of the program's
mod steps; // steps.rt: a step, and the steps of a run

ghost use Rattle.std.specs.Prelude.{◌≡◌, Err};
ghost use Rattle.theory.specs.TurnedDown.{read_text_under, read_list_under, run_from, run_program};
ghost use Rattle.theory.specs.ProgramText.{commands};
ghost use Rattle.source_state.specs.Answers.{source_state, HandsBack};
ghost use Rattle.source.specs.Lines.{Given};

use program::Program;
pub use source_state::{Run, State};
use theory::{Ended, Refusal, Setting};

// Rule 9.
const NONE_OF_ITS_STATES: Refusal = Refusal {
    number: 9,
    place: 0,
};

// A run that is refused.
fn refused(state: State, refusal: Refusal) -> Run
    ensures { result ≡ record { state = state; ended = Err refusal } }
{
    Run {
        state,
        ended: Err(refusal),
    }
}

// A run of an accepted program: rule 9, and then the steps. Targets and entries are found here, once for the run.
fn run_accepted(list: &[u8], lines: usize, variables: usize, state: State, budget: u32) -> Run
    requires { Given list.now lines variables }
    ensures { HandsBack state (run_from (source_state state) budget (commands list.now)) result }
{
    let mut targets = [0u16; Program::LINES];
    let mut entries = [0u8; Program::LINES];
    lines::fill_targets(list, lines, &mut targets);
    lines::fill_entries(list, lines, &mut entries);
    if !rule9::is_source(list, &entries, lines, variables, state) {
        return refused(state, NONE_OF_ITS_STATES);
    }
    let capacities = state.capacities;
    let mut values = state.values;
    let mut passes = state.passes;
    let allowed = budget.min(State::STEPS - state.steps);
    let stop = steps::walk(
        list,
        &targets,
        &entries,
        lines,
        &capacities,
        state.line,
        allowed,
        &mut values,
        &mut passes,
    );
    let end = stop.end;
    let steps = state.steps + stop.taken;
    let after = State {
        capacities,
        line: stop.line,
        steps,
        values,
        passes,
    };
    Run {
        state: after,
        ended: Ok(Ended {
            end,
            steps: stop.taken,
        }),
    }
}

// A run of a program handed in as a list: rules 3 to 8 under a setting, and then 9.
pub fn run_list(setting: Setting, list: &[u8], state: State, budget: u32) -> Run
    ensures { HandsBack state (run_program (read_list_under setting list.now) (source_state state) budget) result }
{
    match program::check_list(setting, list) {
        Ok(p) => run_accepted(list, p.lines, p.variables, state, budget),
        Err(refusal) => refused(state, refusal),
    }
}

// A run of a program handed in as text: rules 1 to 8 under a setting, and then 9.
pub fn run_text(setting: Setting, text: &[u8], state: State, budget: u32) -> Run
    ensures { HandsBack state (run_program (read_text_under setting text.now) (source_state state) budget) result }
{
    let mut list = [0u8; Program::NUMBERS];
    match program::read(setting, text, &mut list) {
        Ok(p) => {
            let numbers = 3 * p.lines;
            run_accepted(&list[..numbers], p.lines, p.variables, state, budget)
        }
        Err(refusal) => refused(state, refusal),
    }
}
