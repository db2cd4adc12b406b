// Runs of a word that is lent decoded, as a slice of instruction records.
#![tactic(auto)]

ghost use Rattle.std.specs.Prelude.{◌≡◌, List};
ghost use Rattle.theory.specs.Word.{Entry};
ghost use Rattle.word.specs.Answers.{entries_of};
ghost use Rattle.records.specs.Answers.{gathered};
ghost use Rattle.memory.specs.Calls.{memory, handed, table_called};

use memory::{Position, Run};
use precedence::turned_down;
use records::Gathered;
use word::Instruction;

// Runs a table that was gathered into numbers: rules 10, then 11, 13, 14 and 15 as for tables.
fn run_gathered(
    capacities: &[u16],
    store: &mut [u8],
    lengths: &mut [u16],
    at: Position,
    g: Gathered,
    budget: u32,
) -> Run
    requires { (t : List Entry) × (g ≡ gathered t) }
    ensures { (t : List Entry) → g ≡ gathered t → handed result store.new lengths.new
        ≡ table_called (memory capacities.now store.old lengths.old) at budget t }
{
    let answer = g.answer;
    match answer {
        Ok(count) => {
            let kinds = g.kinds;
            let operands = g.operands;
            engine::run_numbers(
                capacities,
                store,
                lengths,
                at,
                &kinds[..count],
                &operands[..count],
                budget,
            )
        }
        Err(r) => turned_down(capacities, store, lengths, at, r),
    }
}

// Runs a table of instruction records on a machine: rules 10, then 11, 13, 14 and 15, whose places are entries.
pub fn run_table(
    capacities: &[u16],
    store: &mut [u8],
    lengths: &mut [u16],
    at: Position,
    table: &[Instruction],
    budget: u32,
) -> Run
    ensures { handed result store.new lengths.new
        ≡ table_called (memory capacities.now store.old lengths.old) at budget
        (entries_of table.now) }
{
    run_gathered(
        capacities,
        store,
        lengths,
        at,
        records::gather(table),
        budget,
    )
}
