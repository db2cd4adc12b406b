// The text register machine of document 01, "Machines of the set": runs of a word on a lent store, and one step.
#![tactic(auto)]

ghost use Rattle.std.specs.Prelude.{◌≡◌, ◌≤◌, length, take};
ghost use Rattle.std.proofs.Math.Option.{none};
ghost use Rattle.theory.specs.TurnedDown.{total, table_fault, for_machine};
ghost use Rattle.word.specs.Answers.{zipped};
ghost use Rattle.memory.specs.Calls.{memory, handed, called, word_called, moved_to};
ghost use Rattle.machine.specs.ByByte.{word_for, by_byte, Paired};

use memory::{Position, Run};
use precedence::turned_down;
use theory::{Ended, Refusal};
use word::Instruction;

// Where instruction n starts in the word, counted from 0: all symbols of those before it.
fn start_of(kinds: &[u8], operands: &[u32], n: usize) -> usize
    requires { (length kinds.now ≡ length operands.now) × (n ≤ length kinds.now) × (length kinds.now ≤ 8192) }
    ensures { result ≡ total (take n (zipped kinds.now operands.now)) }
{
    let mut start: usize = 0;
    for i in 0..n {
        start += operands[i] as usize + usize::from(kinds[i]);
    }
    start
}

// A refusal of a table, as that of the word which the table spells: the place of rule 15 is a byte.
fn by_byte(r: Refusal, kinds: &[u8], operands: &[u32]) -> Refusal
    requires { Paired kinds.now operands.now }
    ensures { result ≡ by_byte (zipped kinds.now operands.now) r }
{
    if r.number != 15 {
        return r;
    }
    let entry = if kinds.len() < r.place {
        kinds.len()
    } else {
        r.place
    };
    Refusal {
        number: 15,
        place: start_of(kinds, operands, entry),
    }
}

// Runs a word's instructions, which rules 11 to 14 let pass: rule 10, then 15, whose place is a byte.
fn run_instructions(
    capacities: &[u16],
    store: &mut [u8],
    lengths: &mut [u16],
    at: Position,
    kinds: &[u8],
    operands: &[u32],
    budget: u32,
) -> Run
    requires { table_fault (zipped kinds.now operands.now) ≡ none }
    ensures { handed result store.new lengths.new
        ≡ called (memory capacities.now store.old lengths.old) at budget
        (for_machine (memory capacities.now store.old lengths.old)
        (word_for (length capacities.now) (zipped kinds.now operands.now))) }
{
    let run = engine::run_numbers(capacities, store, lengths, at, kinds, operands, budget);
    match run.ended {
        Ok(_) => run,
        Err(r) => Run {
            position: run.position,
            ended: Err(by_byte(r, kinds, operands)),
        },
    }
}

// Runs a word on a machine: rules 10, then 11 to 15.
pub fn run_word(
    capacities: &[u16],
    store: &mut [u8],
    lengths: &mut [u16],
    at: Position,
    word: &[u8],
    budget: u32,
) -> Run
    ensures { handed result store.new lengths.new
        ≡ word_called (memory capacities.now store.old lengths.old) at budget word.now }
{
    let mut kinds = [0u8; Instruction::INSTRUCTIONS];
    let mut operands = [0u32; Instruction::INSTRUCTIONS];
    match word::read(word, &mut kinds, &mut operands) {
        Ok(count) => run_instructions(
            capacities,
            store,
            lengths,
            at,
            &kinds[..count],
            &operands[..count],
            budget,
        ),
        Err(r) => turned_down(capacities, store, lengths, at, r),
    }
}

// One step of a word, a run of budget 1, which moves the lent record.
pub fn step(
    capacities: &[u16],
    store: &mut [u8],
    lengths: &mut [u16],
    at: &mut Position,
    word: &[u8],
) -> Result<Ended, Refusal>
    ensures { handed (moved_to at.new result) store.new lengths.new
        ≡ word_called (memory capacities.now store.old lengths.old) at.old 1
        word.now }
{
    let r = run_word(capacities, store, lengths, *at, word, 1);
    *at = r.position;
    r.ended
}
