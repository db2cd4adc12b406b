// Writing a table of numbers as a word: rules 11, 13 and 14 as for tables, and then 19.
ghost use Rattle.std.specs.Prelude.{◌≡◌};
ghost use Rattle.word.specs.Answers.{zipped, WritesInto};
ghost use Rattle.output.specs.Puts.{starting};
ghost use Rattle.instruction.specs.Instructions.{text};

use crate::numbers::{counted, kind_at, operand_at};
use instruction::put_instruction;
use tally::answer_for;
use theory::Refusal;

// All entries of a table, put at the front of a word.
fn spell(kinds: &[u8], operands: &[u32], word: &mut [u8])
    ensures { word.new ≡ starting (text (zipped kinds.now operands.now)) word.old }
{
    let count = kinds.len().max(operands.len());
    let mut at: usize = 0;
    for i in 0..count {
        let kind = usize::from(kind_at(kinds, i));
        let operand = operand_at(operands, i) as usize;
        at = put_instruction(&mut *word, at, operand, kind);
    }
}

// Writes a table of numbers as a word: rules 11, 13 and 14 as for tables, then 19. The answer is the number of symbols.
pub fn write(kinds: &[u8], operands: &[u32], word: &mut [u8]) -> Result<usize, Refusal>
    ensures { WritesInto (zipped kinds.now operands.now) word.old result word.new }
{
    let t = counted(kinds, operands);
    let size = answer_for(t, word.len())?;
    spell(kinds, operands, word);
    Ok(size)
}
