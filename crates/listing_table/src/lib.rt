// The table of the word of a listing (document 02, request 6), from its numbers.
#![tactic(auto)]

mod filling;
mod places;

ghost use Rattle.listing_table.specs.Tables.{Fills};

use listing_check::check;
use theory::Refusal;

// The most instructions: F1, and four for each line.
pub const INSTRUCTIONS: usize = 1025;

// Makes the table of the word of a listing of numbers: rules 3, 4 and 22. It is put at the front of kinds and operands, as far as they have
// room; what is handed back is how many instructions it has.
pub fn fill(list: &[u16], kinds: &mut [u8], operands: &mut [u32]) -> Result<usize, Refusal>
    ensures { Fills list.now kinds.old operands.old result kinds.new operands.new }
{
    check(list)?;
    Ok(filling::fill_passed(list, list.len() / 4, kinds, operands))
}
