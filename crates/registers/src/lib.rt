// The registers of a machine of document 01, "Machines of the set": their limits, and those of a fresh word laid out in a lent memory.
#![tactic(auto)]

mod fresh;

ghost use Rattle.rule10.specs.Lent.{memory};
ghost use Rattle.registers.specs.Fresh.{LaysFresh};

use fresh::{fill, fits};
use theory::{Refusal, refused};

// A machine of the set is lent as three lists: each register's capacity, the store, and the lengths. This name carries its limits and its
// fresh registers.
#[derive(Drop)]
pub struct Machine {}

impl Machine {
    pub const REGISTERS: usize = layout::REGISTERS;

    pub const CAPACITY: usize = layout::CAPACITY;

    // A fresh word's registers, laid out in a lent store and lengths: register i + 1 holds as many 1s as value i, and every other register
    // is empty. Rule 10 where the sizes are not the machine's, or a value has no register that can hold it.
    pub fn fresh(
        capacities: &[u16],
        store: &mut [u8],
        lengths: &mut [u16],
        values: &[u32],
    ) -> Result<(), Refusal>
        ensures { LaysFresh (memory capacities.now store.old lengths.old) values.now
            result store.new lengths.new }
    {
        if !fits(capacities, &*store, &*lengths, values) {
            return refused(10, 0);
        }
        fill(capacities, store, lengths, values);
        Ok(())
    }
}
