// What is counted of a table, entry by entry, and what is answered by it: rules 11, 13 and 14, with entries as places, and 19. No count
// wraps, so that a table may be of any length.
#![tactic(auto)]

ghost use Rattle.std.specs.Prelude.{◌≡◌, min};
ghost use Rattle.theory.specs.Machines.{is_limited};
ghost use Rattle.tally.specs.Tallies.{is_good, noted, judged, answered};

use theory::{Refusal, refused};
use word::Instruction;

// What is counted of a table's first entries: their symbols, or one more than a word may have; how many are good before the first bad
// one; how many there are.
#[derive(Clone, Copy)]
pub struct Tally {
    pub size: usize,
    pub good: usize,
    pub count: usize,
}

// A sum of symbols, as a tally has it: one more entry makes no wrap.
fn capped(sum: usize) -> usize
    ensures { result ≡ min sum 600001 }
{
    sum.min(Instruction::SYMBOLS + 1)
}

// A kind that rule 13 lets pass.
pub fn is_kind(kind: u8) -> bool
    ensures { result ≡ is_limited 5 kind }
{
    if kind == 0 {
        return false;
    }
    kind <= Instruction::KINDS
}

// An entry that rule 13 lets pass.
fn is_instruction(kind: u8, operand: u32) -> bool
    ensures { result ≡ is_good (record { kind = kind; operand = operand }) }
{
    if !is_kind(kind) {
        return false;
    }
    0 < operand
}

// The tally with one entry more.
pub fn with_entry(t: Tally, kind: u8, operand: u32) -> Tally
    ensures { result ≡ noted t (record { kind = kind; operand = operand }) }
{
    let size = capped(capped(t.size) + operand as usize + usize::from(kind));
    let count = t.count.saturating_add(1);
    let good = t.good;
    if good < t.count {
        return Tally { size, good, count };
    }
    if is_instruction(kind, operand) {
        return Tally {
            size,
            good: count,
            count,
        };
    }
    Tally { size, good, count }
}

// The answer for a table: rules 11, 13 and 14.
pub fn judge(t: Tally) -> Result<usize, Refusal>
    ensures { result ≡ judged t }
{
    let count = t.count;
    if count == 0 {
        return refused(11, 0);
    }
    if Instruction::SYMBOLS < t.size {
        return refused(11, 0);
    }
    let good = t.good;
    if good < count {
        return refused(13, good);
    }
    if Instruction::INSTRUCTIONS < count {
        return refused(14, Instruction::INSTRUCTIONS);
    }
    Ok(count)
}

// What is answered for a table of this tally and a word of so many bytes: its symbols, or rules 11, 13 and 14, then 19.
pub fn answer_for(t: Tally, room: usize) -> Result<usize, Refusal>
    ensures { result ≡ answered t room }
{
    let size = t.size;
    judge(t)?;
    if room < size {
        return refused(19, 0);
    }
    Ok(size)
}
