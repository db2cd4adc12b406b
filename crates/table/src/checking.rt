// Checking a table of numbers: rules 11, 13 and 14 as for tables, with entries as places. Most tables pass, which is seen by loops that
// look at one list each and have no early end, so that many numbers are tested at once.
ghost use Rattle.std.specs.Prelude.{◌≡◌, true, ℕ, ◌≤◌, ◌<◌, length, get_or, Ok};
ghost use Rattle.theory.specs.TurnedDown.{read_table};
ghost use Rattle.word.specs.Answers.{zipped, read_answer};
ghost use Rattle.table.specs.Tables.{IsKind, Summed};

use crate::numbers::counted;
use tally::{is_kind, judge};
use theory::Refusal;
use word::Instruction;

// Whether all kinds are 1 to 5.
fn all_kinds(kinds: &[u8]) -> bool
    ensures { result ≡ true → (j : ℕ) → j < length kinds.now → IsKind (get_or kinds.now j 0) }
{
    let mut ok = true;
    for kind in kinds {
        if !is_kind(*kind) {
            ok = false;
        }
    }
    ok
}

// The sum of operands, or more than a word may have where one is 0.
fn sum_of(operands: &[u32]) -> usize
    requires { length operands.now ≤ 8192 }
    ensures { result ≤ 600000 → Summed operands.now result }
{
    let mut sum: usize = 0;
    let mut ok = true;
    for operand in operands {
        sum += *operand as usize;
        if *operand == 0 {
            ok = false;
        }
    }
    if ok { sum } else { Instruction::SYMBOLS + 1 }
}

// Whether a table plainly passes: with 5 symbols for each kind it has as many as a word may have.
fn passes(kinds: &[u8], operands: &[u32]) -> bool
    ensures { result ≡ true → Ok (length kinds.now)
        ≡ read_answer (read_table (zipped kinds.now operands.now)) }
{
    let count = kinds.len();
    if count < 1 {
        return false;
    }
    if Instruction::INSTRUCTIONS < count {
        return false;
    }
    if count != operands.len() {
        return false;
    }
    if !all_kinds(kinds) {
        return false;
    }
    sum_of(operands) <= Instruction::SYMBOLS - 5 * count
}

// A table of numbers: rules 11, 13 and 14. A number that is missing counts as 0. Where it does not plainly pass, the rule and the place are
// found entry by entry.
pub fn check(kinds: &[u8], operands: &[u32]) -> Result<usize, Refusal>
    ensures { result ≡ read_answer (read_table (zipped kinds.now operands.now)) }
{
    if passes(kinds, operands) {
        return Ok(kinds.len());
    }
    judge(counted(kinds, operands))
}
