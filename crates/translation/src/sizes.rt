// Sizes of a block and of a line or pair, by two functions that call each other, which note the instructions of every body. A block goes
// through its lines and pairs in a loop, so that calls are nested no deeper than pairs.
ghost use Rattle.std.specs.Prelude.{◌≡◌, true, false, ◌+◌, ◌≤◌, length};
ghost use Rattle.theory.specs.Limits as Limits;
ghost use Rattle.translation.specs.Sites.{Site, block_at, goes_on, first, Counts, join, Noting};

use crate::lines;
use lengths::Length;

// What was counted, and the line after it, from 0.
#[derive(Clone, Copy)]
pub struct Extent {
    pub size: Length,
    pub next: usize,
}

// One length, and another.
fn joined(a: Length, b: Length) -> Length
    requires { (a.instructions + b.instructions ≤ Limits.most_instructions) × (a.symbols + b.symbols ≤ Limits.most_symbols) }
    ensures { result ≡ join a b }
{
    Length {
        instructions: a.instructions + b.instructions,
        symbols: a.symbols + b.symbols,
    }
}

// The block that begins at line `at`, inside `depth` loops.
#[cycle(block_size_pair_size)]
pub fn block_size(
    list: &[u8],
    lines: usize,
    variables: u8,
    depth: u8,
    at: usize,
    bodies: &mut [u16],
) -> Extent
    requires { Site list.now lines variables depth at × (lines ≤ length bodies.old) }
    ensures { Counts variables depth at (block_at list.now at) result
        × Noting list.now variables at result.next bodies.old bodies.new
        × (goes_on (block_at list.now result.next) ≡ false) }
{
    let mut size = Length {
        instructions: 0,
        symbols: 0,
    };
    let mut next = at;
    while lines::begins(list, lines, next) {
        let item = pair_size(list, lines, variables, depth, next, &mut *bodies);
        size = joined(size, item.size);
        next = item.next;
    }
    Extent { size, next }
}

// Its first line or pair.
#[cycle(block_size_pair_size)]
fn pair_size(
    list: &[u8],
    lines: usize,
    variables: u8,
    depth: u8,
    at: usize,
    bodies: &mut [u16],
) -> Extent
    requires { Site list.now lines variables depth at × (goes_on (block_at list.now at) ≡ true)
        × (lines ≤ length bodies.old) }
    ensures { Counts variables depth at (first (block_at list.now at)) result
        × Noting list.now variables at result.next bodies.old bodies.new }
{
    let line = lines::line_at(list, at);
    let first = at + 1;
    if line.kind <= command::COPY {
        let size = lengths::line_size(line, variables);
        Extent { size, next: first }
    } else {
        let inner = lines::deeper(line.kind, depth);
        let body = block_size(list, lines, variables, inner, first, &mut *bodies);
        let m = body.size.instructions;
        bodies[at] = m;
        let ends = lengths::ends_size(line, variables, depth, m);
        let size = joined(body.size, ends);
        Extent {
            size,
            next: body.next + 1,
        }
    }
}
