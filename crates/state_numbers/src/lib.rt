// A source's state as numbers in one slice: the capacities, line, steps, then the values, then the passes-left.
#![tactic(auto)]

ghost use Rattle.std.specs.Prelude.{◌≡◌};
ghost use Rattle.state_numbers.specs.Numbers.{lent_state, kept_numbers};

use source_state::State;

// Where line and steps stand, where the values and the passes-left begin, and how many numbers a state is.
const LINE: usize = 32;

const STEPS: usize = 33;

const VALUES: usize = 34;

const PASSES: usize = 66;

const NUMBERS: usize = 82;

// The state that the numbers are. Another number of them is no state: it is taken for one at line 0, which is none of any program's, so
// that a run from it is refused by rule 9 in its turn.
pub fn state_of(numbers: &[u32]) -> State
    ensures { result ≡ lent_state numbers.now }
{
    let mut capacities = [0u32; State::VALUES];
    let mut values = [0u32; State::VALUES];
    let mut passes = [0u32; State::PASSES];
    if numbers.len() != NUMBERS {
        return State {
            capacities,
            line: 0,
            steps: 0,
            values,
            passes,
        };
    }
    capacities.copy_from_slice(&numbers[0..LINE]);
    values.copy_from_slice(&numbers[VALUES..PASSES]);
    passes.copy_from_slice(&numbers[PASSES..NUMBERS]);
    let line = numbers[LINE];
    let steps = numbers[STEPS];
    State {
        capacities,
        line,
        steps,
        values,
        passes,
    }
}

// Writes a state as its numbers; where there is another number of them they stay as they are.
pub fn put_state(state: State, numbers: &mut [u32])
    ensures { numbers.new ≡ kept_numbers numbers.old state }
{
    if numbers.len() != NUMBERS {
        return;
    }
    numbers[0..LINE].copy_from_slice(&state.capacities);
    numbers[VALUES..PASSES].copy_from_slice(&state.values);
    numbers[PASSES..NUMBERS].copy_from_slice(&state.passes);
    numbers[LINE] = state.line;
    numbers[STEPS] = state.steps;
}
