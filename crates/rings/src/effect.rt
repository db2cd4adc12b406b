// One instruction from a place: "The number of # in an instruction, 1 to 5, decides its effect".
ghost use Rattle.std.specs.Prelude.{◌≡◌, List, ℕ, ◌≤◌, ◌<◌, ◌-◌, ◌^◌, length};
ghost use Rattle.theory.specs.Word.{Symbol};
ghost use Rattle.rule10.specs.Lent.{Sized};
ghost use Rattle.rings.specs.Ring.{Offsets, Ring, Ringed};
ghost use Rattle.underway.specs.Inside.{Usable};
ghost use Rattle.rings.specs.Steps.{Performed, symbol_of, next_if, by_byte};
ghost use Rattle.theory.specs.Word as W;

use crate::store::{append, delete_first};
use word::Instruction;

// The byte of the symbol that an append of this kind appends.
fn symbol_of(kind: u8) -> u8
    ensures { result ≡ symbol_of kind }
{
    if kind == Instruction::APPEND_ONE {
        b'1'
    } else {
        b'#'
    }
}

// Where an append leads, or `None` where there was no room: it is full.
fn next_if(room: bool, here: usize) -> Option<usize>
    requires { here < 2 ^ 31 }
    ensures { result ≡ next_if room here }
{
    if room { Some(here + 1) } else { None }
}

// Where deleting the symbol of byte b leads, or of byte 0 none. No other byte stands in a register; it would be the end of the run.
fn by_byte(b: u8, here: usize) -> Option<usize>
    requires { here < 2 ^ 31 }
    ensures { result ≡ by_byte b here }
{
    match b {
        0 => Some(here + 1),
        b'1' => Some(here + 2),
        b'#' => Some(here + 3),
        _ => None,
    }
}

// Does one instruction, given by its kind and operand, from a place: where it leads, or `None` where it is full. "The number of # in an
// instruction, 1 to 5, decides its effect".
pub fn perform(
    store: &mut [u8],
    lengths: &mut [u16],
    starts: &mut [usize],
    offsets: &[usize],
    capacities: &[u16],
    kind: u8,
    operand: usize,
    here: usize,
) -> Option<usize>
    requires { Sized capacities.now store.old lengths.old × Ringed capacities.now store.old lengths.old starts.old
        × Usable (length capacities.now) kind operand × (600000 ≤ here) × (here < 2 ^ 31 - 600000)
        × Offsets capacities.now offsets.now }
    ensures { (f : ℕ → List Symbol) (i : W.Instruction) → W.kind i ≡ kind → W.operand i ≡ operand
        → Ring capacities.now f store.old lengths.old starts.old
        → Performed capacities.now f here i result store.new lengths.new starts.new }
{
    match kind {
        Instruction::FORWARD => Some(here + operand),
        Instruction::BACKWARD => Some(here - operand),
        Instruction::CASES => by_byte(
            delete_first(store, lengths, starts, offsets, capacities, operand - 1),
            here,
        ),
        _ => next_if(
            append(
                store,
                lengths,
                starts,
                offsets,
                capacities,
                operand - 1,
                symbol_of(kind),
            ),
            here,
        ),
    }
}
