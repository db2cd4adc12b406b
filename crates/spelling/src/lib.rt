// The three numbers of a command, written as its line (document 01, "The program text"); a kind that is none is taken as the last.
#![tactic(auto)]

ghost use Rattle.std.specs.Prelude.{◌≡◌, ◌++◌, ◌+◌, ◌≤◌, length};
ghost use Rattle.theory.specs.Text.{name_of};
ghost use Rattle.output.specs.Puts.{Put};
ghost use Rattle.spelling_sizes.specs.Spellings.{command_line};

use command::{CLEAR, COPY, ENDLOOP, INCREMENT, LOOP, WHILE};
use output::put_bytes;
pub use spelling_sizes::command_size;

// The bytes of the widest line: that which closes a while of an index of three digits.
const WIDEST: usize = 19;

// A word, all of which has a place. By a loop, since `copy_from_slice` takes a fifth longer at words of a few bytes.
fn put(out: &mut [u8], at: usize, word: &[u8]) -> usize
    requires { at + length word.now ≤ length out.old }
    ensures { Put word.now at out.old out.new result × (result ≡ at + length word.now) }
{
    for i in 0..word.len() {
        out[at + i] = word[i];
    }
    at + word.len()
}

// A variable's name.
fn put_name(out: &mut [u8], at: usize, index: u8) -> usize
    requires { at + 4 ≤ length out.old }
    ensures { Put (name_of index) at out.old out.new result × (result ≤ at + 4) }
{
    if index < 10 {
        put(out, at, &[b'X', b'0' + index])
    } else if index < 100 {
        put(out, at, &[b'X', b'0' + index / 10, b'0' + index % 10])
    } else {
        put(
            out,
            at,
            &[
                b'X',
                b'0' + index / 100,
                b'0' + index / 10 % 10,
                b'0' + index % 10,
            ],
        )
    }
}

// A name between two words.
fn put_around(out: &mut [u8], at: usize, front: &[u8], index: u8, back: &[u8]) -> usize
    requires { at + length front.now + 4 + length back.now ≤ length out.old }
    ensures { Put (front.now ++ (name_of index ++ back.now)) at out.old out.new result
        × (result ≤ at + length front.now + 4 + length back.now) }
{
    let named = put(out, at, front);
    let rest = put_name(out, named, index);
    put(out, rest, back)
}

// The line of a command where the widest has a place.
fn put_line(out: &mut [u8], at: usize, kind: u8, index: u8, source: u8) -> usize
    requires { at + 19 ≤ length out.old }
    ensures { Put (command_line kind index source) at out.old out.new result × (result ≤ at + 19) }
{
    match kind {
        CLEAR => put_around(out, at, b"", index, b" <- 0\n"),
        INCREMENT => {
            let arrow = put_around(out, at, b"", index, b" <- ");
            put_around(out, arrow, b"", index, b" + 1\n")
        }
        COPY => {
            let arrow = put_around(out, at, b"", index, b" <- ");
            put_around(out, arrow, b"", source, b"\n")
        }
        LOOP => put_around(out, at, b"loop ", index, b"\n"),
        ENDLOOP => put_around(out, at, b"endloop ", index, b"\n"),
        WHILE => put_around(out, at, b"while ", index, b" != 0\n"),
        _ => put_around(out, at, b"endwhile ", index, b" != 0\n"),
    }
}

// The line of a command, LF included, and the place after it: by one test where the widest has a place, else from a line apart.
pub fn put_command(out: &mut [u8], at: usize, kind: u8, index: u8, source: u8) -> usize
    ensures { Put (command_line kind index source) at out.old out.new result }
{
    if at < out.len() {
        if WIDEST <= out.len() - at {
            return put_line(&mut *out, at, kind, index, source);
        }
    }
    let mut line = [0u8; WIDEST];
    let size = put_line(&mut line, 0, kind, index, source);
    put_bytes(&mut *out, at, &line[..size])
}
