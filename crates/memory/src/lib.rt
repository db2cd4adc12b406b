// The memory of a machine of document 01, "Machines of the set": its value, and what a run hands back.
#![tactic(auto)]

mod answers;

ghost use Rattle.std.specs.Prelude.{◌≡◌};
ghost use Rattle.memory.specs.Calls.{memory, Valued};
ghost use Rattle.memory.specs.Rest.{rest_empty};

pub use answers::{Position, Run};
use layout::wide;
use rule10::is_memory;
use theory::{Refusal, refused};

// Whether every register but the first is empty, by their lengths.
fn is_tidy(lengths: &[u16]) -> bool
    ensures { result ≡ rest_empty lengths.now }
{
    for i in 1..lengths.len() {
        if lengths[i] != 0 {
            return false;
        }
    }
    true
}

// The value of a halted word: register 1, which is the first so many bytes of the store, where every other register is empty; else it is
// untidy, and has none. Or rule 10. Of a word that is not halted this tells what its registers hold so far.
pub fn value(capacities: &[u16], store: &[u8], lengths: &[u16]) -> Result<Option<usize>, Refusal>
    ensures { Valued (memory capacities.now store.now lengths.now) result }
{
    if !is_memory(capacities, store, lengths) {
        return refused(10, 0);
    }
    if is_tidy(lengths) {
        Ok(Some(wide(lengths[0])))
    } else {
        Ok(None)
    }
}
