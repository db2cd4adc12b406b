// Which entries of a table of numbers a machine can do: what a run needs of a table, whatever was checked of it before.
#![tactic(auto)]

ghost use Rattle.std.specs.Prelude.{◌≡◌};
ghost use Rattle.theory.specs.Machines.{is_limited};
ghost use Rattle.word.specs.Answers.{zipped};
ghost use Rattle.usable.specs.Usable.{most_operand, first_unusable, unusable_answer};

use word::Instruction;

// The largest operand that an instruction of a kind may have on a machine of so many registers.
fn most_operand(registers: usize, kind: u8) -> usize
    ensures { result ≡ most_operand registers kind }
{
    match kind {
        Instruction::FORWARD | Instruction::BACKWARD => Instruction::SYMBOLS,
        Instruction::APPEND_ONE | Instruction::APPEND_HASH | Instruction::CASES => registers,
        _ => 0,
    }
}

// Whether a machine of so many registers can do an entry.
fn is_usable(registers: usize, kind: u8, operand: u32) -> bool
    ensures { result ≡ is_limited (most_operand registers kind) operand }
{
    if operand == 0 {
        return false;
    }
    operand as usize <= most_operand(registers, kind)
}

// The first entry that a machine of so many registers cannot do, or that stands past the most instructions of a word, if there is one. A
// number that is missing counts as 0.
pub fn first_unusable(registers: usize, kinds: &[u8], operands: &[u32]) -> Option<usize>
    ensures { result ≡ unusable_answer (first_unusable registers (zipped kinds.now operands.now)) }
{
    let listed = kinds.len().min(operands.len());
    let count = listed.min(Instruction::INSTRUCTIONS);
    for i in 0..count {
        if !is_usable(registers, kinds[i], operands[i]) {
            return Some(i);
        }
    }
    if count < kinds.len() {
        return Some(count);
    }
    if count < operands.len() {
        return Some(count);
    }
    None
}
