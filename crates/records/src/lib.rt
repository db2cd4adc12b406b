// Instruction tables as lent slices of records: read from a word, written as one, and, here, gathered as numbers. Each function that has
// the records in hand is thin and free of branches: where a rule turns its input down, the count handed to it is 0.
#![tactic(auto)]

ghost use Rattle.std.specs.Prelude.{◌≡◌, ◌≤◌, length};
ghost use Rattle.word.specs.Answers.{entries_of};
ghost use Rattle.records.specs.Answers.{gathered};
ghost use Rattle.records.specs.Records.{judged_count, numbers_of, finished};

use record_counting::{count_of, count_table};
pub use record_reading::read_table;
pub use record_writing::write_table;
use tally::{Tally, judge};
use theory::Refusal;
use word::Instruction;

// A table of records as numbers: its kinds and operands with 0s after them, and the number of its instructions; 0s alone, and why, where
// it is turned down.
#[derive(Drop)]
pub struct Gathered {
    pub kinds: [u8; Instruction::INSTRUCTIONS],
    pub operands: [u32; Instruction::INSTRUCTIONS],
    pub answer: Result<usize, Refusal>,
}

// The kinds and operands of a table's first entries, and 0s after them.
#[derive(Drop)]
pub struct Numbers {
    pub kinds: [u8; Instruction::INSTRUCTIONS],
    pub operands: [u32; Instruction::INSTRUCTIONS],
}

// The numbers of the first `count` records.
fn copied(table: &[Instruction], count: usize) -> Numbers
    requires { (count ≤ length table.now) × (count ≤ 8192) }
    ensures { result ≡ numbers_of (entries_of table.now) count }
{
    let mut kinds = [0u8; Instruction::INSTRUCTIONS];
    let mut operands = [0u32; Instruction::INSTRUCTIONS];
    for (i, e) in table[..count].iter().enumerate() {
        kinds[i] = e.kind;
        operands[i] = e.operand;
    }
    Numbers { kinds, operands }
}

// How many entries of a table with this tally are instructions: all, or none where a rule turns it down.
fn count_for(t: Tally) -> usize
    ensures { result ≡ judged_count t }
{
    count_of(judge(t))
}

fn finish(t: Tally, n: Numbers) -> Gathered
    ensures { result ≡ finished t n }
{
    let answer = judge(t);
    let kinds = n.kinds;
    let operands = n.operands;
    Gathered {
        kinds,
        operands,
        answer,
    }
}

// A table of records as numbers: rules 11, 13 and 14 as for tables.
pub fn gather(table: &[Instruction]) -> Gathered
    ensures { result ≡ gathered (entries_of table.now) }
{
    let t = count_table(table);
    let count = count_for(t);
    let n = copied(table, count);
    finish(t, n)
}
