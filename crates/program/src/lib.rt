// Programs as text (document 01, "The program text"): read into a list of three numbers a command, by rules 1 to 8 and 20, and written from
// one.
#![tactic(auto)]

mod lines; // lines.rt: the three numbers of every line
mod spell; // spell.rt: the text of a list

ghost use Rattle.std.specs.Prelude.{◌≡◌};
ghost use Rattle.theory.specs.ProgramText.{list_of};
ghost use Rattle.theory.specs.TurnedDown.{mapped, lent_after, read_program_into, write_program_into};
ghost use Rattle.list.specs.Answers.{checked};
ghost use Rattle.program.specs.Answers.{written};

pub use list::{Program, check_list};
use output::put_bytes;
use text::{BYTES, is_ended};
use theory::{Refusal, Setting, refused};

// A text read into a lent list of three numbers a command: rules 1 to 8 under a setting, then 19.
pub fn read(setting: Setting, text: &[u8], list: &mut [u8]) -> Result<Program, Refusal>
    ensures value { result ≡ checked (read_program_into setting list.old text.now) }
    ensures list_after { list.new
        ≡ lent_after list.old (mapped list_of (read_program_into setting list.old text.now)) }
{
    if BYTES < text.len() {
        return refused(1, 0);
    }
    let mut numbers = [0u8; Program::NUMBERS];
    let lines = lines::read_lines(text, &mut numbers);
    if !is_ended(text) {
        return refused(2, lines);
    }
    if Program::LINES < lines {
        return refused(3, Program::LINES + 1);
    }
    let count = 3 * lines;
    let program = check_list(setting, &numbers[..count])?;
    if list.len() < count {
        return refused(19, 0);
    }
    put_bytes(list, 0, &numbers[..count]);
    Ok(program)
}

// A list written into a lent text, of so many bytes: rules 3 to 8 under a setting, then 19.
pub fn write(setting: Setting, list: &[u8], text: &mut [u8]) -> Result<usize, Refusal>
    ensures value { result ≡ written (write_program_into setting text.old list.now) }
    ensures text_after { text.new
        ≡ lent_after text.old (write_program_into setting text.old list.now) }
{
    check_list(setting, list)?;
    let size = spell::text_size(list);
    if text.len() < size {
        return refused(19, 0);
    }
    spell::put_text(list, text);
    Ok(size)
}
