// Registers that hold 1s alone, each of which is its length: whether a lent memory has only such, and its store laid anew from the lengths.
#![tactic(auto)]

ghost use Rattle.std.specs.Prelude.{◌≡◌, ◌-◌, eqb, take, replicate};
ghost use Rattle.std.proofs.lemmas.List.Edits.{sets};
ghost use Rattle.theory.specs.Basics.{all};
ghost use Rattle.rule10.specs.Lent.{memory, Sized};
ghost use Rattle.ones.specs.Ones.{only_ones, holds_ones, relaid_place, relaid};

use byte_runs::write_runs;
use layout::{all_are, wide};
use rule10::{is_memory, is_sized};

// Whether the first n bytes of a place, or all that it has, are 1s.
fn begins_with_ones(part: &[u8], n: usize) -> bool
    ensures { result ≡ all (eqb 49) (take n part.now) }
{
    let size = n.min(part.len());
    all_are(&part[..size], b'1')
}

// Whether every symbol of every register is a 1.
fn all_ones(capacities: &[u16], store: &[u8], lengths: &[u16]) -> bool
    requires { Sized capacities.now store.now lengths.now }
    ensures { result ≡ only_ones (memory capacities.now store.now lengths.now) }
{
    let mut from: usize = 0;
    for (i, capacity) in capacities.iter().enumerate() {
        let to = from + wide(*capacity);
        if !begins_with_ones(&store[from..to], wide(lengths[i])) {
            return false;
        }
        from = to;
    }
    true
}

// Whether a lent memory is one, and every register holds 1s alone. Most that have a # are known by the first of their registers, so the
// rest of rule 10 comes last.
pub fn are_ones(capacities: &[u16], store: &[u8], lengths: &[u16]) -> bool
    ensures { result ≡ holds_ones (memory capacities.now store.now lengths.now) }
{
    if !is_sized(capacities, store, lengths) {
        return false;
    }
    if !all_ones(capacities, store, lengths) {
        return false;
    }
    is_memory(capacities, store, lengths)
}

// The bytes of a place from one on and before another.
fn fill(part: &mut [u8], from: usize, to: usize, byte: u8)
    ensures { part.new ≡ sets part.old from (replicate (to - from) byte) }
{
    if to <= from {
        return;
    }
    if part.len() <= from {
        return;
    }
    write_runs(&mut part[from..], to - from, byte, 0, 0);
}

// A register's place, whose length was another before.
fn lay_place(part: &mut [u8], before: u16, after: u16)
    ensures { part.new ≡ relaid_place before after part.old }
{
    let old = wide(before);
    let new = wide(after);
    fill(&mut *part, old, new, b'1');
    fill(part, new, old, 0);
}

// The places of a store whose registers hold 1s alone, put right where a length is another than before. Nothing else is written.
pub fn lay_ones(capacities: &[u16], store: &mut [u8], before: &[u16], after: &[u16])
    ensures { store.new ≡ relaid capacities.now before.now after.now
        store.old }
{
    let mut from: usize = 0;
    for (capacity, (old, new)) in capacities.iter().zip(before.iter().zip(after)) {
        let to = from + wide(*capacity).min(store.len() - from);
        lay_place(&mut store[from..to], *old, *new);
        from = to;
    }
}
