// Words: what an instruction is, and a word read into a lent table of two slices of numbers, kinds and operands.
#![tactic(auto)]

mod answers;
mod reading;

pub use answers::{Instruction, Item};
pub use reading::{item_at, measure, read};
