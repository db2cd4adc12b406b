// The lines of a program's text, read as a list of three numbers a command.
ghost use Rattle.std.specs.Prelude.{◌≤◌, ◌<◌, ◌≡◌, length};
ghost use Rattle.theory.specs.Limits.{most_bytes};
ghost use Rattle.program.specs.Lines.{Stored, Lined};

use command::{Numbers, numbers_of};
use text::line_end;

// Three numbers at a place of a list, where it has room.
fn store(n: Numbers, list: &mut [u8], at: usize)
    requires { at < 65536 }
    ensures { Stored n at list.old list.new }
{
    if at + 2 < list.len() {
        list[at] = n.kind;
        list[at + 1] = n.index;
        list[at + 2] = n.source;
    }
}

// The number of lines, with the numbers of the first 512 in the list.
pub fn read_lines(text: &[u8], list: &mut [u8]) -> usize
    requires { (length text.now ≤ most_bytes) × (length list.old ≡ 1536) }
    ensures { Lined text.now list.new result }
{
    let mut at = 0;
    let mut lines = 0;
    while at < text.len() {
        let end = line_end(text, at);
        store(numbers_of(&text[at..end]), list, 3 * lines);
        lines += 1;
        at = end + 1;
    }
    lines
}
