// The numbers of a table by their places, and what is counted of it. A number that is missing counts as 0.
ghost use Rattle.std.specs.Prelude.{◌≡◌, get_or};
ghost use Rattle.word.specs.Answers.{zipped};
ghost use Rattle.tally.specs.Tallies.{tally_of};

use tally::{Tally, with_entry};

// A number of a list, or 0 where it is missing.
pub fn kind_at(kinds: &[u8], i: usize) -> u8
    ensures { result ≡ get_or kinds.now i 0 }
{
    kinds.get(i).copied().unwrap_or(0)
}

pub fn operand_at(operands: &[u32], i: usize) -> u32
    ensures { result ≡ get_or operands.now i 0 }
{
    operands.get(i).copied().unwrap_or(0)
}

// The tally of a table of numbers. A number that is missing counts as 0.
pub fn counted(kinds: &[u8], operands: &[u32]) -> Tally
    ensures { result ≡ tally_of (zipped kinds.now operands.now) }
{
    let count = kinds.len().max(operands.len());
    let mut t = Tally {
        size: 0,
        good: 0,
        count: 0,
    };
    for i in 0..count {
        t = with_entry(t, kind_at(kinds, i), operand_at(operands, i));
    }
    t
}
