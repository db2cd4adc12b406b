// A line of a run sheet: the number that each field spells, and the numbers of all.
#![tactic(auto)]

ghost use Rattle.std.specs.Prelude.{◌≡◌, ◌^◌, ◌≤◌, ◌<◌, min};
ghost use Rattle.fields.specs.Fields.{most, spelled, all_of, field_of, numbers_of};
ghost use Rattle.fields.specs.Fields.{under, put_in, line_of, with_number};

use columns::COLUMNS;
use numerals::{Number, name, numeral};
use text::find;

// The numbers of a line: the first 32, and how many there are. `below` says that all are below a bound; one that isn't is kept as 0.
// It stays a flag: rules 17 and 18 ask it after rule 16's count of the same line.
#[derive(Clone, Copy)]
pub struct Line {
    pub numbers: [u32; COLUMNS],
    pub count: usize,
    pub below: bool,
}

// The number that a text of so many bytes is as a whole, where it begins with one.
fn whole(size: usize, found: Option<Number>) -> Option<u64>
    ensures { result ≡ all_of size found }
{
    let number = found?;
    if number.end < size {
        return None;
    }
    Some(number.value)
}

// A field: a name, or a numeral. Its number may have any size, and is kept at ABOVE where it is larger.
fn field(text: &[u8], named: bool) -> Option<u64>
    ensures { result ≡ spelled (field_of named text.now) }
{
    if named {
        whole(text.len(), name(text, 0, Line::ABOVE))
    } else {
        whole(text.len(), numeral(text, 0, Line::ABOVE))
    }
}

// A number that is below the bound; 0 for any other.
fn bounded(n: u64, bound: u64) -> u32
    requires { bound ≤ most }
    ensures { result ≡ under bound n }
{
    if n < bound { n as u32 } else { 0 }
}

// The numbers with one at a place; they stay as they are where that is past the last.
fn placed(mut numbers: [u32; COLUMNS], at: usize, n: u32) -> [u32; COLUMNS]
    ensures { result ≡ put_in numbers at n }
{
    if at < COLUMNS {
        numbers[at] = n;
    }
    numbers
}

impl Line {
    // Above any capacity.
    pub const ABOVE: u64 = 4294967296;

    // One number more.
    fn with(self, n: u64, bound: u64) -> Self
        requires { (self.count < 2 ^ 63) × (bound ≤ most) }
        ensures { result ≡ with_number bound n self }
    {
        Line {
            numbers: placed(self.numbers, self.count, bounded(n, bound)),
            count: self.count + 1,
            below: self.below && n < bound,
        }
    }
}

// The numbers of a line, field by field; none where a field spells no number. A field begins behind a blank; the empty line has none.
pub fn read_line(text: &[u8], named: bool, bound: u64) -> Option<Line>
    ensures { result ≡ line_of (min bound most) (numbers_of named text.now) }
{
    let kept = bound.min(Line::ABOVE);
    let mut line = Line {
        numbers: [0; COLUMNS],
        count: 0,
        below: true,
    };
    let mut at: usize = if text.len() == 0 { 1 } else { 0 };
    while at <= text.len() {
        let end = find(text, at, b' ');
        let n = field(&text[at..end], named)?;
        line = line.with(n, kept);
        at = end + 1;
    }
    Some(line)
}
