// How registers lie in a machine's store, as rule 10 of document 01 lays it down: where each has its place, and what a place holds.
#![tactic(auto)]

ghost use Rattle.std.specs.Prelude.{◌≡◌, ◌<◌, eqb, length, get_or};
ghost use Rattle.theory.specs.Basics.{all};
ghost use Rattle.theory.specs.Machines.{is_laid};
ghost use Rattle.layout.specs.Offsets.{offsets_of};

// How many registers a machine may have, and how many symbols one of them may hold.
pub const REGISTERS: usize = 64;

pub const CAPACITY: usize = 1024;

// Where a place begins, for as many registers, and where the last one ends.
pub const OFFSETS: usize = REGISTERS + 1;

// A capacity or a length, which are lent as 16 bits. A name for `usize::from`, which stays: its promise and its must-fail edits do.
pub fn wide(x: u16) -> usize
    ensures { result ≡ x }
{
    usize::from(x)
}

// The capacity of register i + 1. One that the list lacks has none.
pub fn capacity_at(capacities: &[u16], i: usize) -> usize
    ensures { (result ≡ get_or capacities.now i 0) × (result < 65536) }
{
    match capacities.get(i) {
        Some(capacity) => wide(*capacity),
        None => 0,
    }
}

// From which byte each register has its place: the sum of the capacities before its own. The one after the last is where its place ends.
pub fn offsets(capacities: &[u16]) -> [usize; OFFSETS]
    ensures { result ≡ offsets_of capacities.now }
{
    let mut places = [0usize; OFFSETS];
    let mut end: usize = 0;
    for i in 0..REGISTERS {
        end += capacity_at(capacities, i);
        places[i + 1] = end;
    }
    places
}

// Whether each byte of a part is a given one. All are looked at, as in `are_symbols`.
pub fn all_are(part: &[u8], byte: u8) -> bool
    ensures { result ≡ all (eqb byte) part.now }
{
    let mut ok = true;
    for x in part {
        if *x != byte {
            ok = false;
        }
    }
    ok
}

// Whether a register's place is laid out with a length of n: n symbols, and byte 0 after them.
pub fn is_laid(part: &[u8], n: usize) -> bool
    ensures { result ≡ is_laid (length part.now) n part.now }
{
    if part.len() < n {
        return false;
    }
    if !text::are_symbols(&part[..n]) {
        return false;
    }
    all_are(&part[n..], 0)
}
