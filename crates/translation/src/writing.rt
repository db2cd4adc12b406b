// The word, written by two functions that call each other, as the sizes are counted. The instructions of every body were noted before.
// Calls are nested as deep as pairs, so a call keeps little: the notes are lent as an array, and the number of lines is read off the list.
ghost use Rattle.std.specs.Prelude.{◌≡◌, true, ◌/◌, length};
ghost use Rattle.translation.specs.Sites.{Site, block_at, goes_on, first, Noted, Writes};

use crate::lines;
use program::Program;

// The line after what was written, and the place in the output after it.
#[derive(Clone, Copy)]
pub struct Spot {
    pub next: usize,
    pub place: usize,
}

// The block that begins at line `at`, inside `depth` loops.
#[cycle(put_block_put_pair)]
pub fn put_block(
    list: &[u8],
    variables: u8,
    depth: u8,
    at: usize,
    bodies: &[u16; Program::LINES],
    out: &mut [u8],
    place: usize,
) -> Spot
    requires { Site list.now (length list.now / 3) variables depth at
        × Noted list.now variables (length list.now / 3) bodies.now }
    ensures { Writes variables depth at (block_at list.now at) place out.old out.new result }
{
    let lines = list.len() / 3;
    let mut next = at;
    let mut here = place;
    while lines::begins(list, lines, next) {
        let item = put_pair(list, variables, depth, next, bodies, &mut *out, here);
        next = item.next;
        here = item.place;
    }
    Spot { next, place: here }
}

// Its first line or pair.
#[cycle(put_block_put_pair)]
fn put_pair(
    list: &[u8],
    variables: u8,
    depth: u8,
    at: usize,
    bodies: &[u16; Program::LINES],
    out: &mut [u8],
    place: usize,
) -> Spot
    requires { Site list.now (length list.now / 3) variables depth at × (goes_on (block_at list.now at) ≡ true)
        × Noted list.now variables (length list.now / 3) bodies.now }
    ensures { Writes variables depth at (first (block_at list.now at)) place out.old out.new result }
{
    let line = lines::line_at(list, at);
    let first = at + 1;
    if line.kind <= command::COPY {
        let end = emit::plain_line(&mut *out, place, line, variables);
        Spot {
            next: first,
            place: end,
        }
    } else {
        let inner = lines::deeper(line.kind, depth);
        let m = bodies[at];
        let start = emit::before_body(&mut *out, place, line, variables, depth, m);
        let body = put_block(list, variables, inner, first, bodies, &mut *out, start);
        let end = emit::after_body(&mut *out, body.place, line.kind, m);
        Spot {
            next: body.next + 1,
            place: end,
        }
    }
}
