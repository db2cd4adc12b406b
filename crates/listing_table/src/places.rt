// Where each line's instructions begin in the word of an accepted listing.
ghost use Rattle.std.specs.Prelude.{◌≡◌, get_or};
ghost use Rattle.listing_check.specs.Lined.{lines_of};
ghost use Rattle.listing_table.specs.Tables.{Passed, kind_size, Placed};

use listing_check::numbers_at;
use listing_numbers::SCAN;

// The place of line 1: F1 stands before it.
const FIRST: u16 = 2;

// The numbers from 0 to that of the line after the last.
pub const PLACES: usize = listing_check::LINES + 2;

// The instructions of a line.
fn size_of(kind: u16) -> u16
    ensures { result ≡ kind_size kind }
{
    if kind == SCAN { 4 } else { 1 }
}

// The place of each line, by its number, and of the line after the last. Number 0 is no line's, and has the place of line 1. The places
// are lent: handed back, they would lie on the stack twice.
pub fn put_places(list: &[u16], lines: usize, places: &mut [u16; PLACES])
    requires { Passed list.now lines }
    ensures { Placed (lines_of list.now) lines places.new }
{
    *places = [FIRST; PLACES];
    for i in 0..lines {
        let n = numbers_at(list, i);
        let line = i + 1;
        places[line + 1] = places[line] + size_of(n.kind);
    }
}

// The place of a line by its number; 0 where it has none.
pub fn place_at(places: &[u16], line: u16) -> u16
    ensures { result ≡ get_or places.now line 0 }
{
    match places.get(usize::from(line)) {
        Some(place) => *place,
        None => 0,
    }
}
