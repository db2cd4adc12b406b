// Answers on programs as numbers for the C host: a program read or translated, packed with its counts, or its refusal
// (specs/Answered).
#![tactic(auto)]

ghost use Rattle.std.specs.Prelude.{◌≡◌};
ghost use Rattle.program_packing.specs.Answered.{program_read, translated};

use instruction::Size;
use list::Program;
use packing::{pack, refused};
use theory::Refusal;

// A program read, by its variables and its commands.
pub fn program_read(read: Result<Program, Refusal>) -> u64
    ensures { result ≡ program_read read }
{
    match read {
        Ok(p) => pack(0, p.variables, p.lines),
        Err(r) => refused(r),
    }
}

// A program translated, by its word's instructions and symbols.
pub fn translated(answer: Result<Size, Refusal>) -> u64
    ensures { result ≡ translated answer }
{
    match answer {
        Ok(size) => pack(0, size.instructions, size.symbols),
        Err(r) => refused(r),
    }
}
