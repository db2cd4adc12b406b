// Whether a table of numbers can be run on the lengths of registers that hold 1s alone.
#![tactic(auto)]

ghost use Rattle.std.specs.Prelude.{◌≡◌};
ghost use Rattle.theory.specs.Basics.{all};
ghost use Rattle.countable.specs.Countable.{no_2, has_counts, is_countable};
ghost use Rattle.registers.specs.Fresh.{values_within};

use layout::{REGISTERS, capacity_at};
use usable::first_unusable;
use word::Instruction;

// Whether no instruction appends #. All kinds are looked at, so that many are tested at once.
pub fn no_hash(kinds: &[u8]) -> bool
    ensures { result ≡ all no_2 kinds.now }
{
    let mut ok = true;
    for kind in kinds {
        if *kind == Instruction::APPEND_HASH {
            ok = false;
        }
    }
    ok
}

// Whether each length is within its capacity.
fn all_within(capacities: &[u16], lengths: &[u16]) -> bool
    ensures { result ≡ values_within capacities.now lengths.now }
{
    for (i, length) in lengths.iter().enumerate() {
        if capacity_at(capacities, i) < usize::from(*length) {
            return false;
        }
    }
    true
}

// Whether there are as many lengths as capacities, no more than a machine has registers, and no instruction appends #.
fn has_counts(capacities: &[u16], lengths: &[u16], kinds: &[u8]) -> bool
    ensures { result ≡ has_counts capacities.now lengths.now kinds.now }
{
    if REGISTERS < capacities.len() {
        return false;
    }
    if lengths.len() != capacities.len() {
        return false;
    }
    if !all_within(capacities, lengths) {
        return false;
    }
    no_hash(kinds)
}

// Whether a table can be run on lengths.
pub fn is_countable(capacities: &[u16], lengths: &[u16], kinds: &[u8], operands: &[u32]) -> bool
    ensures { result ≡ is_countable capacities.now lengths.now kinds.now operands.now }
{
    if !has_counts(capacities, lengths, kinds) {
        return false;
    }
    match first_unusable(capacities.len(), kinds, operands) {
        Some(_) => false,
        None => true,
    }
}
