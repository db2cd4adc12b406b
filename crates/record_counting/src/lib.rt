// What is counted of a lent slice of records, and of an answer on one.
#![tactic(auto)]

ghost use Rattle.std.specs.Prelude.{◌≡◌};
ghost use Rattle.word.specs.Answers.{entries_of};
ghost use Rattle.tally.specs.Tallies.{tally_of};
ghost use Rattle.record_counting.specs.Counted.{answer_count, no_tally};

use tally::{Tally, with_entry};
use theory::Refusal;
use word::Instruction;

// The number of instructions of an answer; none where it is a refusal.
pub fn count_of(answer: Result<usize, Refusal>) -> usize
    ensures { result ≡ answer_count answer }
{
    answer.unwrap_or(0)
}

fn empty_tally() -> Tally
    ensures { result ≡ no_tally }
{
    Tally {
        size: 0,
        good: 0,
        count: 0,
    }
}

// The tally of a table of records.
pub fn count_table(table: &[Instruction]) -> Tally
    ensures { result ≡ tally_of (entries_of table.now) }
{
    let mut t = empty_tally();
    for e in table {
        t = with_entry(t, e.kind, e.operand);
    }
    t
}
