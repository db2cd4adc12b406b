// A line of a program's text, read as the three numbers of its command.
ghost use Rattle.std.specs.Prelude.{◌≡◌, ◌+◌, ◌≤◌, length, drop};
ghost use Rattle.theory.specs.Text.{same};
ghost use Rattle.theory.specs.ProgramText.{around, command};
ghost use Rattle.command.specs.Lines.{limited, numbers_as, of_kind, numbered, numbered_if, alike};
ghost use Rattle.command.specs.Lines.{assignment as assignment-of, pair as pair_of, Assigned};

use crate::{CLEAR, COPY, ENDLOOP, ENDWHILE, INCREMENT, LOOP, Numbers, WHILE};
use numerals::name;
use text::stands;

// Numbers of names up to here are told apart. No line has as many primes, so what is larger is in digits.
const MOST: u64 = 18446744073709551615;

// What a line that is none of the spellings is read as. Kind 0 goes into the list, in which rule 4 turns the line down.
const NO_COMMAND: Numbers = Numbers {
    kind: 0,
    index: 0,
    source: 0,
};

// An index in a byte, with 32 for every one above 31.
fn low(index: u64) -> u8
    ensures { result ≡ limited index }
{
    let above = Numbers::INDEX + 1;
    if index < u64::from(above) {
        index as u8
    } else {
        above
    }
}

// The numbers of a command of indices of any size.
fn numbers(kind: u8, index: u64, source: u64) -> Numbers
    ensures { result ≡ numbers_as kind index source }
{
    Numbers {
        kind,
        index: low(index),
        source: low(source),
    }
}

// Whether a word is what a line has from a place on.
fn ends(s: &[u8], at: usize, word: &[u8]) -> bool
    requires { at ≤ length s.now }
    ensures { result ≡ same word.now (drop at s.now) }
{
    word == &s[at..]
}

// The opening or closing line of a pair: a name between two words. Always inlined, so that each pair's words are known where they are looked
// for.
#[inline(always)]
fn pair_line(s: &[u8], kind: u8, front: &[u8], back: &[u8]) -> Option<Numbers>
    ensures { result ≡ of_kind kind (around front.now back.now s.now) }
{
    if !stands(s, 0, front) {
        return None;
    }
    let variable = name(s, front.len(), MOST)?;
    if ends(s, variable.end, back) {
        Some(numbers(kind, variable.value, 0))
    } else {
        None
    }
}

// Whether two names of a line are one variable's: by their numbers, and above the largest by their bytes. The first begins the line.
fn are_one(s: &[u8], end: usize, value: u64, at: usize, last: usize, source: u64) -> bool
    requires { (end ≤ length s.now) × ((at ≤ last) × (last ≤ length s.now)) }
    ensures { result ≡ alike s.now end value at last source }
{
    if value < MOST {
        value == source
    } else {
        ends(&s[..last], at, &s[..end])
    }
}

// An increment or a copy of the variable whose name ends at a place of a line: by the name following the arrow.
fn assigned(s: &[u8], end: usize, value: u64) -> Option<Numbers>
    requires { end + 4 ≤ length s.now }
    ensures { Assigned s.now end value result }
{
    let at = end + 4;
    let source = name(s, at, MOST)?;
    if s.len() <= source.end {
        return Some(numbers(COPY, value, source.value));
    }
    if ends(s, source.end, b" + 1") {
        if are_one(s, end, value, at, source.end, source.value) {
            return Some(numbers(INCREMENT, value, 0));
        }
    }
    None
}

// A line that begins with a name: a clear, an increment or a copy.
fn assignment(s: &[u8]) -> Option<Numbers>
    ensures { result ≡ numbered_if (assignment-of s.now) }
{
    let variable = name(s, 0, MOST)?;
    if ends(s, variable.end, b" <- 0") {
        return Some(numbers(CLEAR, variable.value, 0));
    }
    if stands(s, variable.end, b" <- ") {
        assigned(s, variable.end, variable.value)
    } else {
        None
    }
}

// A line that begins with no name, by the first of the other spellings that it has.
fn pair(s: &[u8]) -> Option<Numbers>
    ensures { result ≡ numbered_if (pair_of s.now) }
{
    pair_line(s, LOOP, b"loop ", b"")
        .or_else(|| pair_line(s, ENDLOOP, b"endloop ", b""))
        .or_else(|| pair_line(s, WHILE, b"while ", b" != 0"))
        .or_else(|| pair_line(s, ENDWHILE, b"endwhile ", b" != 0"))
}

// The numbers of a line, by the first of the spellings that it has.
pub fn numbers_of(s: &[u8]) -> Numbers
    ensures { result ≡ numbered (command s.now) }
{
    assignment(s).or_else(|| pair(s)).unwrap_or(NO_COMMAND)
}
