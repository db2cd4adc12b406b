// Runs of a source from a state that is lent as numbers in one slice, in which the state afterwards then stands.
#![tactic(auto)]

ghost use Rattle.theory.specs.TurnedDown.{read_text_under, read_list_under};
ghost use Rattle.states.specs.Numbers.{RunsLent};

use state_numbers::{put_state, state_of};
use theory::{Ended, Refusal, Setting};

// A program handed in as text: rules 1 to 8 under a setting, then 9, which another number of numbers is too.
pub fn run_text(
    setting: Setting,
    text: &[u8],
    state: &mut [u32],
    budget: u32,
) -> Result<Ended, Refusal>
    ensures { RunsLent (read_text_under setting text.now) state.old budget result state.new }
{
    let run = source::run_text(setting, text, state_of(&*state), budget);
    let next = run.state;
    let ended = run.ended;
    put_state(next, &mut *state);
    ended
}

// A program handed in as a list: rules 3 to 8 under a setting, then 9.
pub fn run_list(
    setting: Setting,
    list: &[u8],
    state: &mut [u32],
    budget: u32,
) -> Result<Ended, Refusal>
    ensures { RunsLent (read_list_under setting list.now) state.old budget result state.new }
{
    let run = source::run_list(setting, list, state_of(&*state), budget);
    let next = run.state;
    let ended = run.ended;
    put_state(next, &mut *state);
    ended
}
