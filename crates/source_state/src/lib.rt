// The state of a source and what a run of one hands back, as types with their limits (document 01, "Machines of the set"); the fresh state;
// what a step does to the numbers of a state, and rule 9 of each of them.
#![tactic(auto)]

mod rule9; // rule9.rt: rule 9 of one number
mod step; // step.rt: what a step does, by numbers

ghost use Rattle.source_state.specs.Answers.{Fresh};

pub use rule9::{is_good_passes, is_good_value};
pub use step::{Led, lead, store};
use theory::{Ended, Refusal};

// Where a run stands: the capacity of each variable, the line, the count of steps, the variables, and the passes left of each loop around
// the line, by the number of loops around that loop.
#[derive(Clone, Copy)]
pub struct State {
    pub capacities: [u32; State::VALUES],
    pub line: u32,
    pub steps: u32,
    pub values: [u32; State::VALUES],
    pub passes: [u32; State::PASSES],
}

// "The limits and the fresh states belong to the record types they bound": the most capacity, how many values and passes-left a state has,
// and the count of steps at which a run ends as spent.
impl State {
    pub const CAPACITY: u32 = 1024;

    pub const VALUES: usize = 32;

    pub const PASSES: usize = 16;

    pub const STEPS: u32 = 4294967295;

    // Line 1, no steps, and no passes left.
    pub fn fresh(capacities: [u32; State::VALUES], values: [u32; State::VALUES]) -> State
        ensures { Fresh capacities values result }
    {
        State {
            capacities,
            line: 1,
            steps: 0,
            values,
            passes: [0u32; State::PASSES],
        }
    }
}

// What a run hands back: the state then, and how it ended, or why it was refused. A refusal leaves the state as it was.
#[derive(Clone, Copy)]
pub struct Run {
    pub state: State,
    pub ended: Result<Ended, Refusal>,
}
