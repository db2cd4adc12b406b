// Listings as numbers, four a line (document 02, request 6): rule 3, then rules 4 and 22 line by line.
#![tactic(auto)]

ghost use Rattle.std.specs.Prelude.{◌≡◌, suc};
ghost use Rattle.theory.specs.Machines.{is_limited};
ghost use Rattle.listing.specs.Refused.{line_fault, lines_fault, listing_fault};
ghost use Rattle.listing_check.specs.Lined.{numbers_at, line_of, lined, judged, Whole};

use listing_numbers::{Numbers, PRINT_HASH, PRINT_ONE, SCAN};
use theory::{Refusal, refused};

// "at most 256 lines"
pub const LINES: usize = 256;

// The numbers of line `at`, from 0; those of no line where there is none.
pub fn numbers_at(list: &[u16], at: usize) -> Numbers
    ensures { result ≡ numbers_at list.now at }
{
    if list.len() / 4 <= at {
        return Numbers {
            kind: 0,
            register: 0,
            one: 0,
            hash: 0,
        };
    }
    let first = 4 * at;
    Numbers {
        kind: list[first],
        register: list[first + 1],
        one: list[first + 2],
        hash: list[first + 3],
    }
}

// Whether a target is one of so many lines, or the line after the last.
fn is_target(target: u16, lines: usize) -> bool
    ensures { result ≡ is_limited (suc lines) target }
{
    if target == 0 {
        return false;
    }
    usize::from(target) - 1 <= lines
}

// Line `line` of so many: rule 4, then 22.
fn judge(n: Numbers, lines: usize, line: usize) -> Result<(), Refusal>
    ensures { result ≡ judged (line_fault lines line (line_of n)) }
{
    let kind = n.kind;
    if kind == PRINT_ONE {
        return Ok(());
    }
    if kind == PRINT_HASH {
        return Ok(());
    }
    if kind != SCAN {
        return refused(4, line);
    }
    if !is_target(n.one, lines) {
        return refused(22, line);
    }
    if !is_target(n.hash, lines) {
        return refused(22, line);
    }
    Ok(())
}

// So many lines, first faulty line first.
fn check_lines(list: &[u16], lines: usize) -> Result<(), Refusal>
    requires { Whole list.now lines }
    ensures { result ≡ judged (lines_fault lines 1 (lined list.now)) }
{
    for i in 0..lines {
        let n = numbers_at(list, i);
        judge(n, lines, i + 1)?;
    }
    Ok(())
}

// A listing as numbers: rule 3, then 4 and 22 line by line.
pub fn check(list: &[u16]) -> Result<(), Refusal>
    ensures { result ≡ judged (listing_fault (lined list.now)) }
{
    let lines = list.len() / 4;
    if LINES < lines {
        return refused(3, LINES + 1);
    }
    check_lines(list, lines)
}
