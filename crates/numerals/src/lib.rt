// Numbers at a place of a text: numerals, and names with an index in digits or in primes. They are kept at a limit, so that many digits
// never wrap.
#![tactic(auto)]

ghost use Rattle.std.specs.Prelude.{◌≡◌, ◌+◌, ◌*◌, ◌≤◌, ◌<◌, min, length, drop};
ghost use Rattle.std.proofs.Math.Option.{some};
ghost use Rattle.theory.specs.Text.{numeral as numeral-of, primes as primes-of, name as name_of};
ghost use Rattle.numerals.specs.Numbers.{found_in, DigitsTo, AsNumeral};

use text::run_end;

// A number at a place of a text: where it ends, and its value, kept at a limit where it is above that.
#[derive(Clone, Copy)]
pub struct Number {
    pub end: usize,
    pub value: u64,
}

// Up to here a number takes one digit more without a wrap.
const SAFE: u64 = 1000000000000000000;

// One digit more, up to a limit.
fn grown(value: u64, digit: u8, most: u64) -> u64
    ensures { result ≡ min (value * 10 + digit) most }
{
    let d = u64::from(digit);
    if value <= SAFE {
        (value * 10 + d).min(most)
    } else if most < d {
        most
    } else if (most - d) / 10 < value {
        most
    } else {
        value * 10 + d
    }
}

// The digits at a place, as far as they go: no digits are the number 0 that ends there.
fn digits_at(text: &[u8], at: usize, most: u64) -> Number
    ensures { DigitsTo text.now at most result }
{
    let mut value = 0;
    for end in at..text.len() {
        let b = text[end];
        if b < b'0' {
            return Number { end, value };
        }
        if b'9' < b {
            return Number { end, value };
        }
        value = grown(value, b - b'0', most);
    }
    Number {
        end: text.len().max(at),
        value,
    }
}

// The digits at a place, as a numeral: it has no leading zero.
fn proper(text: &[u8], at: usize, digits: Number) -> Option<Number>
    requires { at < length text.now }
    ensures { AsNumeral text.now at digits result }
{
    if text[at] == b'0' {
        if at + 1 < digits.end {
            return None;
        }
    }
    Some(digits)
}

// A numeral: digits with no leading zero.
pub fn numeral(text: &[u8], at: usize, most: u64) -> Option<Number>
    ensures { result ≡ found_in (length text.now) most (numeral-of (drop at text.now)) }
{
    let digits = digits_at(text, at, most);
    if digits.end <= at {
        return None;
    }
    proper(text, at, digits)
}

// An index in primes: how many stand at a place.
fn primes(text: &[u8], at: usize, most: u64) -> Option<Number>
    requires { at ≤ length text.now }
    ensures { result ≡ found_in (length text.now) most (some (primes-of (drop at text.now))) }
{
    let end = run_end(text, at, b'\'');
    let count = (end - at) as u64;
    let value = count.min(most);
    Some(Number { end, value })
}

// A name: an X, and its index in digits or in primes.
pub fn name(text: &[u8], at: usize, most: u64) -> Option<Number>
    ensures { result ≡ found_in (length text.now) most (name_of (drop at text.now)) }
{
    if text.len() <= at {
        return None;
    }
    if text[at] != b'X' {
        return None;
    }
    let digits = digits_at(text, at + 1, most);
    if digits.end <= at + 1 {
        return primes(text, at + 1, most);
    }
    proper(text, at + 1, digits)
}
