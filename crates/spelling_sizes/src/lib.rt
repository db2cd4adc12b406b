// How long the line of a command is (document 01, "The program text"), by its three numbers; a kind that is none is taken as the last.
#![tactic(auto)]

ghost use Rattle.std.specs.Prelude.{◌≡◌, ◌≤◌, length};
ghost use Rattle.theory.specs.Text.{name_of};
ghost use Rattle.spelling_sizes.specs.Spellings.{command_line};

use command::{CLEAR, COPY, ENDLOOP, INCREMENT, LOOP, WHILE};

// The bytes of a variable's name.
fn name_size(index: u8) -> usize
    ensures { (result ≡ length (name_of index)) × (result ≤ 4) }
{
    if index < 10 {
        2
    } else if index < 100 {
        3
    } else {
        4
    }
}

// The bytes of a command's line, LF included.
pub fn command_size(kind: u8, index: u8, source: u8) -> usize
    ensures { result ≡ length (command_line kind index source) }
{
    let size = name_size(index);
    match kind {
        CLEAR => size + 6,
        INCREMENT => 2 * size + 9,
        COPY => size + name_size(source) + 5,
        LOOP => size + 6,
        ENDLOOP => size + 9,
        WHILE => size + 12,
        _ => size + 15,
    }
}
