// The text of an accepted list: its size, and the text written at the front of a lent slice.
ghost use Rattle.std.specs.Prelude.{◌≡◌, length};
ghost use Rattle.std.proofs.Math.Option.{none};
ghost use Rattle.std.proofs.lemmas.List.Edits.{sets};
ghost use Rattle.theory.specs.Basics.{present};
ghost use Rattle.theory.specs.ProgramText.{listed, text_of};
ghost use Rattle.theory.specs.TurnedDown.{program_fault};

use spelling::{command_size, put_command};

// The bytes of the text of an accepted list.
pub fn text_size(list: &[u8]) -> usize
    requires { program_fault (listed list.now) ≡ none }
    ensures { result ≡ length (text_of (present (listed list.now))) }
{
    let mut size = 0;
    for n in 0..list.len() / 3 {
        size += command_size(list[3 * n], list[3 * n + 1], list[3 * n + 2]);
    }
    size
}

// The text of an accepted list, at the front of a slice.
pub fn put_text(list: &[u8], text: &mut [u8])
    requires { program_fault (listed list.now) ≡ none }
    ensures { text.new ≡ sets text.old 0 (text_of (present (listed list.now))) }
{
    let mut at = 0;
    for n in 0..list.len() / 3 {
        at = put_command(text, at, list[3 * n], list[3 * n + 1], list[3 * n + 2]);
    }
}
