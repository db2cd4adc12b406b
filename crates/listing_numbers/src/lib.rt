// A line of a listing (document 02, request 6), read as four numbers.
#![tactic(auto)]

ghost use Rattle.std.specs.Prelude.{◌≡◌, length, drop, option_map};
ghost use Rattle.theory.specs.Limits.{most_registers};
ghost use Rattle.theory.specs.Machines.{is_limited};
ghost use Rattle.numerals.specs.Numbers.{found_in};
ghost use Rattle.listing.specs.Listing.{line as line_of, scans};
ghost use Rattle.listing_numbers.specs.Numbers.{most_target, numbers};
ghost use Rattle.listing_numbers.specs.Lines.{in_order, numbers_if, after, Prints, with_targets};

use numerals::{Number, numeral};
use text::stands;

// The kind of a line is that of its first instruction. It is a number and no enum, since lines are kept as numbers, four a line.
pub const PRINT_ONE: u16 = 1;

pub const PRINT_HASH: u16 = 2;

pub const SCAN: u16 = 5;

// Kind (0 where a line is none of the spellings), register, and an `Scd`'s targets for 1 and for #. A target above 65535 is 65535.
#[derive(Clone, Copy)]
pub struct Numbers {
    pub kind: u16,
    pub register: u16,
    pub one: u16,
    pub hash: u16,
}

impl Numbers {
    pub const REGISTERS: u64 = 64;

    pub const TARGET: u64 = 65535;
}

// What a line that is none of the spellings is read as. Kind 0 goes into the list, in which rule 4 turns the line down.
const NO_LINE: Numbers = Numbers {
    kind: 0,
    register: 0,
    one: 0,
    hash: 0,
};

// The numeral that follows a word at a place of a line.
fn number_after(s: &[u8], at: usize, word: &[u8]) -> Option<Number>
    ensures { result ≡ found_in (length s.now) most_target (after word.now (drop at s.now)) }
{
    if stands(s, at, word) {
        numeral(s, at + word.len(), Numbers::TARGET)
    } else {
        None
    }
}

// Whether a number is one of a register, from 1 to 64.
fn is_register(n: u64) -> bool
    ensures { result ≡ is_limited most_registers n }
{
    if n < 1 {
        false
    } else {
        n <= Numbers::REGISTERS
    }
}

// A P line of a name: it ends with its register.
fn print_line(s: &[u8], kind: u16, name: &[u8]) -> Option<Numbers>
    ensures { Prints kind name.now s.now result }
{
    let register = number_after(s, 0, name)?;
    if is_register(register.value) {
        if s.len() <= register.end {
            return Some(Numbers {
                kind,
                register: register.value as u16,
                one: 0,
                hash: 0,
            });
        }
    }
    None
}

// The targets of an `Scd`, from a place on: the line ends with them.
fn targets(s: &[u8], at: usize, register: u16) -> Option<Numbers>
    ensures { option_map in_order result ≡ numbers_if (with_targets register (drop at s.now)) }
{
    let one = number_after(s, at, b" ")?;
    let hash = number_after(s, one.end, b" ")?;
    if s.len() <= hash.end {
        Some(Numbers {
            kind: SCAN,
            register,
            one: one.value as u16,
            hash: hash.value as u16,
        })
    } else {
        None
    }
}

// An `Scd`: its register, then its targets.
fn scan_line(s: &[u8]) -> Option<Numbers>
    ensures { option_map in_order result ≡ numbers_if (scans s.now) }
{
    let register = number_after(s, 0, b"Scd ")?;
    if is_register(register.value) {
        targets(s, register.end, register.value as u16)
    } else {
        None
    }
}

// The numbers of a line, by the first of the spellings that it has.
pub fn numbers_of(s: &[u8]) -> Numbers
    ensures { in_order result ≡ numbers (line_of s.now) }
{
    print_line(s, PRINT_ONE, b"P1 ")
        .or_else(|| print_line(s, PRINT_HASH, b"P# "))
        .or_else(|| scan_line(s))
        .unwrap_or(NO_LINE)
}
