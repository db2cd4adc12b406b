// The size of a word, and the one writer of instructions (document 02, request 4): each is written straight into the part of the
// output that begins at its place.
#![tactic(auto)]

ghost use Rattle.std.specs.Prelude.{[], ◌∷◌, ◌≡◌};
ghost use Rattle.output.specs.Puts.{starting};
ghost use Rattle.instruction.specs.Instructions.{text, Spelt};

use byte_runs::write_runs;
use output::onward;

// The size of a word, which is what a translation answers: its symbols and its instructions.
#[derive(Clone, Copy)]
pub struct Size {
    pub symbols: usize,
    pub instructions: usize,
}

// The number of # of an instruction, by its kind. Numbers and no enum: an entry of any table is written so, whatever its kind.
pub const APPEND: usize = 1;

pub const FORWARD: usize = 3;

pub const BACKWARD: usize = 4;

pub const CASES: usize = 5;

// An instruction, `operand` times 1 and then `kind` times #: the part that is lent then starts with it, as far as it has room, and is
// otherwise as it was.
pub fn write_instruction(part: &mut [u8], operand: usize, kind: usize)
    ensures { part.new ≡ starting (text (record { kind = kind; operand = operand } ∷ [])) part.old }
{
    write_runs(part, operand, b'1', kind, b'#');
}

// An instruction at a place where not all of it has room. What it returns is the place after it.
fn put_cut(out: &mut [u8], place: usize, operand: usize, kind: usize) -> usize
    ensures { Spelt (record { kind = kind; operand = operand } ∷ []) place out.old out.new result }
{
    let end = onward(place, onward(operand, kind));
    if out.len() <= place {
        return end;
    }
    write_instruction(&mut out[place..], operand, kind);
    end
}

// An instruction at a place of an output. What it returns is the place after it, by a plain sum where all of it has room.
pub fn put_instruction(out: &mut [u8], place: usize, operand: usize, kind: usize) -> usize
    ensures { Spelt (record { kind = kind; operand = operand } ∷ []) place out.old out.new result }
{
    if place < out.len() {
        let room = out.len() - place;
        if operand <= room {
            if kind <= room - operand {
                write_instruction(&mut out[place..], operand, kind);
                return place + operand + kind;
            }
        }
    }
    put_cut(out, place, operand, kind)
}
