// A word read into a lent slice of records: thin functions over those on numbers. The one that has the records in hand is free of
// branches: where a rule turns the word down, the count handed to it is 0.
#![tactic(auto)]

ghost use Rattle.std.specs.Prelude.{◌≡◌};
ghost use Rattle.word.specs.Answers.{read_answer};
ghost use Rattle.record_reading.specs.Answers.{ReadsTable};
ghost use Rattle.record_reading.specs.Storing.{measured, Storable, stored};

use record_counting::count_of;
use theory::{Refusal, refused};
use word::{Instruction, item_at, measure};

// Rules 11 to 14, and then 19 for a lent table of so many entries.
fn measure_for(word: &[u8], room: usize) -> Result<usize, Refusal>
    ensures { result ≡ read_answer (measured room word.now) }
{
    let count = measure(word)?;
    if room < count {
        return refused(19, 0);
    }
    Ok(count)
}

// Stores the word's first `count` instructions.
fn store(word: &[u8], count: usize, table: &mut [Instruction])
    requires { Storable word.now count table.old }
    ensures { table.new ≡ stored word.now count table.old }
{
    let mut at: usize = 0;
    for i in 0..count {
        let e = item_at(word, at);
        at = e.next;
        table[i] = Instruction {
            kind: e.kind,
            operand: e.operand,
        };
    }
}

// Reads a word into a lent table of records: rules 11 to 14, then 19.
pub fn read_table(word: &[u8], table: &mut [Instruction]) -> Result<usize, Refusal>
    ensures { ReadsTable word.now table.old result table.new }
{
    let answer = measure_for(word, table.len());
    let count = count_of(answer);
    store(word, count, table);
    answer
}
