// Rule 10 of document 01: each register's capacity, the lent store and its lengths.
#![tactic(auto)]

ghost use Rattle.std.specs.Prelude.{◌≡◌, ◌≤◌, suc, length};
ghost use Rattle.theory.specs.Basics.{all};
ghost use Rattle.theory.specs.Limits.{most_capacity};
ghost use Rattle.theory.specs.Machines.{offset, is_limited, is_sized, is_memory};
ghost use Rattle.rule10.specs.Lent.{memory, Sized, places_laid};

use layout::{CAPACITY, REGISTERS, capacity_at, is_laid, wide};

// Where the last register's place ends. It is added up here, and so are the places below: a table of them would lie on the stack.
fn end_of(capacities: &[u16]) -> usize
    requires { length capacities.now ≤ 64 }
    ensures { result ≡ offset capacities.now (suc (length capacities.now)) }
{
    let mut end: usize = 0;
    for capacity in capacities {
        end += wide(*capacity);
    }
    end
}

// Whether every register's place is laid out with its length.
fn all_laid(capacities: &[u16], store: &[u8], lengths: &[u16]) -> bool
    requires { Sized capacities.now store.now lengths.now }
    ensures { result ≡ places_laid (length capacities.now) capacities.now store.now
        lengths.now }
{
    let mut from: usize = 0;
    for (i, length) in lengths.iter().enumerate() {
        let to = from + capacity_at(capacities, i);
        let n = wide(*length);
        if !is_laid(&store[from..to], n) {
            return false;
        }
        from = to;
    }
    true
}

// Whether each capacity is within the limits.
pub fn are_limited(capacities: &[u16]) -> bool
    ensures { result ≡ all (is_limited most_capacity) capacities.now }
{
    for x in capacities {
        let capacity = wide(*x);
        if capacity < 1 {
            return false;
        }
        if CAPACITY < capacity {
            return false;
        }
    }
    true
}

// Rule 10's sizes: they are within the limits, and the store and the lengths have them.
pub fn is_sized(capacities: &[u16], store: &[u8], lengths: &[u16]) -> bool
    ensures { result ≡ is_sized (memory capacities.now store.now lengths.now) }
{
    let registers = capacities.len();
    if registers < 1 {
        return false;
    }
    if REGISTERS < registers {
        return false;
    }
    if !are_limited(capacities) {
        return false;
    }
    if store.len() != end_of(capacities) {
        return false;
    }
    lengths.len() == registers
}

// Rule 10: the sizes, and the places as laid down.
pub fn is_memory(capacities: &[u16], store: &[u8], lengths: &[u16]) -> bool
    ensures { result ≡ is_memory (memory capacities.now store.now lengths.now) }
{
    if !is_sized(capacities, store, lengths) {
        return false;
    }
    all_laid(capacities, store, lengths)
}
