// The registers of a fresh word: whether a lent memory can hold them, and their layout.
ghost use Rattle.std.specs.Prelude.{◌≡◌, ℕ, ◌≤◌, length, get_or};
ghost use Rattle.theory.specs.Machines.{ones, laid};
ghost use Rattle.rule10.specs.Lent.{memory, Sized};
ghost use Rattle.registers.specs.Held.{Held};
ghost use Rattle.registers.specs.Fresh.{fresh_registers, values_within, can_hold};

use byte_runs::write_runs;
use layout::{capacity_at, offsets};
use rule10::is_sized;

// Whether each value is within the capacity of its register.
fn all_within(capacities: &[u16], values: &[u32]) -> bool
    ensures { result ≡ values_within capacities.now values.now }
{
    for (i, value) in values.iter().enumerate() {
        if capacity_at(capacities, i) < *value as usize {
            return false;
        }
    }
    true
}

// Whether a lent memory has a register for each value that can hold it.
pub fn fits(capacities: &[u16], store: &[u8], lengths: &[u16], values: &[u32]) -> bool
    ensures { result ≡ can_hold (memory capacities.now store.now lengths.now) values.now }
{
    if !is_sized(capacities, store, lengths) {
        return false;
    }
    if capacities.len() < values.len() {
        return false;
    }
    all_within(capacities, values)
}

// Lays n ones down in a place, and byte 0 after them.
fn lay(part: &mut [u8], n: usize)
    requires { n ≤ length part.old }
    ensures { part.new ≡ laid (length part.old) (ones n) }
{
    let rest = part.len() - n;
    write_runs(part, n, b'1', rest, 0);
}

// How many ones register i + 1 holds.
fn held(values: &[u32], i: usize) -> usize
    ensures { result ≡ get_or values.now i 0 }
{
    match values.get(i) {
        Some(value) => *value as usize,
        None => 0,
    }
}

// Fills every register's place, and the lengths.
pub fn fill(capacities: &[u16], store: &mut [u8], lengths: &mut [u16], values: &[u32])
    requires { Sized capacities.now store.old lengths.old × ((i : ℕ) → get_or values.now i 0 ≤ get_or capacities.now i 0) }
    ensures { Held capacities.now (fresh_registers values.now) store.new lengths.new }
{
    let places = offsets(capacities);
    for (i, length) in lengths.iter_mut().enumerate() {
        let n = held(values, i);
        let from = places[i];
        let to = places[i + 1];
        lay(&mut store[from..to], n);
        *length = n as u16;
    }
}
