// Which of two rules turns a run down: rule 10, on the lent memory, goes before those on the word or the table.
#![tactic(auto)]

ghost use Rattle.std.specs.Prelude.{◌≡◌};
ghost use Rattle.memory.specs.Calls.{memory, refused_at, after_10};

use memory::{Position, Run};
use rule10::is_memory;
use theory::{Refusal, refused};

// A call that a rule after 10 turns down: rule 10 goes before.
pub fn turned_down(
    capacities: &[u16],
    store: &[u8],
    lengths: &[u16],
    at: Position,
    r: Refusal,
) -> Run
    ensures { result ≡ refused_at at (after_10 (memory capacities.now store.now lengths.now) r) }
{
    if is_memory(capacities, store, lengths) {
        return Run {
            position: at,
            ended: Err(r),
        };
    }
    Run {
        position: at,
        ended: refused(10, 0),
    }
}
