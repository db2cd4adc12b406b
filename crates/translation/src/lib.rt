// Translation of a program into its 1# word (document 01, "Translation"), plain or tidy. The sizes come first, by a walk over the program;
// then each symbol of the word is written once, straight into the caller's output.
#![tactic(auto)]

mod lines;
mod sizes;
mod writing;

ghost use Rattle.std.specs.Prelude.{◌≡◌, ◌/◌, ◌≤◌, length};
ghost use Rattle.theory.specs.TurnedDown.{done, read_list, read_list_under, read_text_under, lent_after};
ghost use Rattle.theory.specs.ProgramText.{commands};
ghost use Rattle.tidy.specs.Forms.{text_in};
ghost use Rattle.translation.specs.Answers.{size_in, translated, output, Answered};
ghost use Rattle.translation.specs.Sites.{Known, Noted};

pub use instruction::Size;
use program::Program;
use theory::{Refusal, Setting, refused};
use tidy::Form;

// The size of a form of the word of an accepted list: F1, the program's block, and what the form adds. The instructions of every body are
// noted.
fn word_size(form: Form, list: &[u8], lines: usize, variables: u8, bodies: &mut [u16]) -> Size
    requires { Known list.now lines variables × (lines ≤ length bodies.old) }
    ensures { (result ≡ size_in form (commands list.now))
        × Noted list.now variables lines bodies.new }
{
    let block = sizes::block_size(list, lines, variables, 0, 0, &mut *bodies);
    let added = forms::added_size(form, variables);
    Size {
        symbols: 4 + block.size.symbols + added.symbols,
        instructions: 1 + usize::from(block.size.instructions) + usize::from(added.instructions),
    }
}

// A form of the word of an accepted list, at the start of an output that has room for it.
fn put_word(form: Form, list: &[u8], variables: u8, bodies: &[u16; Program::LINES], out: &mut [u8])
    requires { Known list.now (length list.now / 3) variables × Noted list.now variables (length list.now / 3) bodies.now
        × (length (text_in form (commands list.now)) ≤ length out.old) }
    ensures { out.new ≡ lent_after out.old (done (text_in form (commands list.now))) }
{
    let place = instruction::put_instruction(&mut *out, 0, 1, instruction::FORWARD);
    let block = writing::put_block(list, variables, 0, 0, bodies, &mut *out, place);
    forms::put_added(form, &mut *out, block.place, variables);
}

// Rule 19, and the word.
fn translate_accepted(
    form: Form,
    list: &[u8],
    lines: usize,
    variables: usize,
    out: &mut [u8],
) -> Result<Size, Refusal>
    requires { Known list.now lines variables }
    ensures { Answered form (read_list list.now) out.old out.new result }
{
    let mut bodies = [0u16; Program::LINES];
    let named = variables as u8;
    let size = word_size(form, list, lines, named, &mut bodies);
    if out.len() < size.symbols {
        return refused(19, 0);
    }
    put_word(form, list, named, &bodies, &mut *out);
    Ok(size)
}

// A list of three numbers a command, translated in a form: rules 3 to 8 under a setting, then 19.
pub fn translate_list(
    setting: Setting,
    form: Form,
    list: &[u8],
    out: &mut [u8],
) -> Result<Size, Refusal>
    ensures value { result ≡ translated form out.old (read_list_under setting list.now) }
    ensures out_after { out.new ≡ output form out.old (read_list_under setting list.now) }
{
    let program = program::check_list(setting, list)?;
    translate_accepted(form, list, program.lines, program.variables, &mut *out)
}

// A text, translated so: rules 1 to 8 under a setting, then 19.
pub fn translate_text(
    setting: Setting,
    form: Form,
    text: &[u8],
    out: &mut [u8],
) -> Result<Size, Refusal>
    ensures value { result ≡ translated form out.old (read_text_under setting text.now) }
    ensures out_after { out.new ≡ output form out.old (read_text_under setting text.now) }
{
    let mut list = [0u8; Program::NUMBERS];
    let program = program::read(setting, text, &mut list)?;
    let lines = program.lines;
    let end = 3 * lines;
    translate_accepted(form, &list[..end], lines, program.variables, &mut *out)
}
