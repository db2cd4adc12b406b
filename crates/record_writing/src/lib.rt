// A lent slice of records written as a word: thin functions over those on numbers. The one that has the records in hand is free of
// branches: where a rule turns the table down, the count handed to it is 0.
#![tactic(auto)]

ghost use Rattle.std.specs.Prelude.{◌≡◌, [], ◌∷◌, ◌≤◌, length, take};
ghost use Rattle.output.specs.Puts.{starting};
ghost use Rattle.instruction.specs.Instructions.{text, Spelt};
ghost use Rattle.word.specs.Answers.{entry_of, entries_of, WritesInto};
ghost use Rattle.record_writing.specs.Written.{written_count};

use instruction::put_instruction;
use record_counting::count_table;
use tally::answer_for;
use theory::Refusal;
use word::Instruction;

// How many of so many records are written by an answer: all, or none where it is a refusal.
fn count_written(answer: Result<usize, Refusal>, count: usize) -> usize
    ensures { result ≡ written_count answer count }
{
    if answer.is_ok() { count } else { 0 }
}

// One record, put at a place of a word. What it returns is the place after it.
fn put_record(word: &mut [u8], place: usize, e: Instruction) -> usize
    ensures { Spelt (entry_of e ∷ []) place word.old word.new result }
{
    put_instruction(word, place, e.operand as usize, usize::from(e.kind))
}

// The first `count` records, put at the start of a word.
fn spell(table: &[Instruction], count: usize, word: &mut [u8])
    requires { count ≤ length table.now }
    ensures { word.new ≡ starting (text (take count (entries_of table.now))) word.old }
{
    let mut at: usize = 0;
    for e in &table[..count] {
        at = put_record(&mut *word, at, *e);
    }
}

// Writes a table of records as a word, each record straight from the table: rules 11, 13 and 14 as for tables, then 19.
pub fn write_table(table: &[Instruction], word: &mut [u8]) -> Result<usize, Refusal>
    ensures { WritesInto (entries_of table.now) word.old result word.new }
{
    let t = count_table(table);
    let answer = answer_for(t, word.len());
    let count = count_written(answer, table.len());
    spell(table, count, word);
    answer
}
