// Instruction tables as two slices of numbers, kinds and operands: checked, and written as words.
#![tactic(auto)]

mod checking;
mod numbers;
mod writing;

pub use checking::check;
pub use writing::write;
