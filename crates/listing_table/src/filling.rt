// The table of the word of an accepted listing: F1, and the instructions of each line.
ghost use Rattle.std.specs.Prelude.{◌≡◌, [], ◌∷◌, ◌+◌, ◌-◌, ◌≤◌, ◌<◌, length, set};
ghost use Rattle.theory.specs.Word.{forward, entry_of, table_of};
ghost use Rattle.word.specs.Answers.{record_of, entry_of as record-entry};
ghost use Rattle.listing.specs.Listing.{transfer as transfer-of, word, code};
ghost use Rattle.listing_check.specs.Lined.{lines_of};
ghost use Rattle.listing_table.specs.Tables.{Passed, most_entries, Placed, line_entries, Tabled};

use crate::places::{PLACES, place_at, put_places};
use listing_check::numbers_at;
use listing_numbers::{Numbers, SCAN};
use word::Instruction;

// From a place to another one.
fn transfer(from: u16, to: u16) -> Instruction
    ensures { result ≡ record_of (entry_of (transfer-of from to)) }
{
    if from < to {
        Instruction {
            kind: Instruction::FORWARD,
            operand: u32::from(to - from),
        }
    } else {
        Instruction {
            kind: Instruction::BACKWARD,
            operand: u32::from(from - to),
        }
    }
}

// A number of a list, where it has that place.
fn put_number<T: Copy>(numbers: &mut [T], at: usize, number: T)
    ensures { numbers.new ≡ set numbers.old at number }
{
    if at < numbers.len() {
        numbers[at] = number;
    }
}

// An instruction at an index of a table.
fn put(kinds: &mut [u8], operands: &mut [u32], at: usize, i: Instruction)
    ensures { Tabled (record-entry i ∷ []) at kinds.old operands.old kinds.new
        operands.new }
{
    put_number(kinds, at, i.kind);
    put_number(operands, at, i.operand);
}

// What follows the cases of a line: where to go on empty, for 1 and for #.
fn put_exits(kinds: &mut [u8], operands: &mut [u32], at: usize, one: Instruction, hash: Instruction)
    requires { at < 65536 }
    ensures { Tabled (entry_of (forward 3) ∷ record-entry one ∷ record-entry hash ∷ []) at kinds.old
        operands.old kinds.new operands.new }
{
    let empty = Instruction {
        kind: Instruction::FORWARD,
        operand: 3,
    };
    put(&mut *kinds, &mut *operands, at, empty);
    put(&mut *kinds, &mut *operands, at + 1, one);
    put(&mut *kinds, &mut *operands, at + 2, hash);
}

// The instructions of a line from a place on, told the places of its targets. Places count from 1.
fn put_line(kinds: &mut [u8], operands: &mut [u32], place: u16, n: Numbers, one: u16, hash: u16)
    requires { (n.kind ≤ 5) × (1 ≤ place) × (place ≤ most_entries) }
    ensures { Tabled (line_entries n place one hash) (place - 1) kinds.old operands.old
        kinds.new operands.new }
{
    let at = usize::from(place) - 1;
    let first = Instruction {
        kind: n.kind as u8,
        operand: u32::from(n.register),
    };
    put(&mut *kinds, &mut *operands, at, first);
    if n.kind != SCAN {
        return;
    }
    let for_one = transfer(place + 2, one);
    let for_hash = transfer(place + 3, hash);
    put_exits(&mut *kinds, &mut *operands, at + 1, for_one, for_hash);
}

// The instructions of all lines, whose places are told.
fn put_lines(list: &[u16], lines: usize, places: &[u16], kinds: &mut [u8], operands: &mut [u32])
    requires { Passed list.now lines × Placed (lines_of list.now) lines places.now × (lines + 1 < length places.now) }
    ensures { Tabled (table_of (code (lines_of list.now) 2 (lines_of list.now))) 1
        kinds.old operands.old kinds.new operands.new }
{
    for i in 0..lines {
        let n = numbers_at(list, i);
        let one = place_at(places, n.one);
        let hash = place_at(places, n.hash);
        put_line(&mut *kinds, &mut *operands, places[i + 1], n, one, hash);
    }
}

// The table, and how many instructions it has.
pub fn fill_passed(list: &[u16], lines: usize, kinds: &mut [u8], operands: &mut [u32]) -> usize
    requires { Passed list.now lines }
    ensures { (result ≡ length (word (lines_of list.now)))
        × Tabled (table_of (word (lines_of list.now))) 0 kinds.old operands.old
        kinds.new operands.new }
{
    let mut places = [0; PLACES];
    put_places(list, lines, &mut places);
    let start = Instruction {
        kind: Instruction::FORWARD,
        operand: 1,
    };
    put(&mut *kinds, &mut *operands, 0, start);
    put_lines(list, lines, &places, &mut *kinds, &mut *operands);
    usize::from(places[lines + 1]) - 1
}
