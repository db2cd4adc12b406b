// The instructions of a plain line and of the two ends of a pair (document 01, "Translation"), each put at a place of the output. What a
// function returns is the place after its last. Indices, variables and depths are bytes, and the instructions of a body a u16, so that no
// sum of them wraps.
#![tactic(auto)]

ghost use Rattle.std.specs.Prelude.{◌≡◌, ◌+◌};
ghost use Rattle.theory.specs.Translation as T;
ghost use Rattle.emit.specs.Pieces.{plain_of, looping, testing, across, front, back, Written};

use command::Numbers;
use instruction::{APPEND, BACKWARD, CASES, FORWARD, put_instruction};

// C a, F2, B2
pub fn clearing(out: &mut [u8], place: usize, a: usize) -> usize
    ensures { Written (T.clearing a) place out.old out.new result }
{
    let second = put_instruction(&mut *out, place, a, CASES);
    let third = put_instruction(&mut *out, second, 2, FORWARD);
    put_instruction(&mut *out, third, 2, BACKWARD)
}

// C a, Fn, +a: a copy of a into itself, by n = 2, and what stands before the body of a WHILE
fn testing(out: &mut [u8], place: usize, a: usize, n: usize) -> usize
    ensures { Written (testing a n) place out.old out.new result }
{
    let second = put_instruction(&mut *out, place, a, CASES);
    let third = put_instruction(&mut *out, second, n, FORWARD);
    put_instruction(&mut *out, third, a, APPEND)
}

// C a, F4, +b, +t, B4
fn sharing(out: &mut [u8], place: usize, a: usize, b: usize, t: usize) -> usize
    ensures { Written (T.sharing a b t) place out.old out.new result }
{
    let second = put_instruction(&mut *out, place, a, CASES);
    let third = put_instruction(&mut *out, second, 4, FORWARD);
    let fourth = put_instruction(&mut *out, third, b, APPEND);
    let fifth = put_instruction(&mut *out, fourth, t, APPEND);
    put_instruction(&mut *out, fifth, 4, BACKWARD)
}

// C t, F3, +a, B3
fn returning(out: &mut [u8], place: usize, t: usize, a: usize) -> usize
    ensures { Written (T.returning t a) place out.old out.new result }
{
    let second = put_instruction(&mut *out, place, t, CASES);
    let third = put_instruction(&mut *out, second, 3, FORWARD);
    let fourth = put_instruction(&mut *out, third, a, APPEND);
    put_instruction(&mut *out, fourth, 3, BACKWARD)
}

// C b, F2, B2, C a, F4, +b, +t, B4, C t, F3, +a, B3
fn copying(out: &mut [u8], place: usize, a: usize, b: usize, t: usize) -> usize
    ensures { Written (T.copying a b t) place out.old out.new result }
{
    let cleared = clearing(&mut *out, place, b);
    let shared = sharing(&mut *out, cleared, a, b, t);
    returning(&mut *out, shared, t, a)
}

// The register of an index, and scratch of so many variables.
fn register(n: u8) -> usize
    ensures { result ≡ n + 1 }
{
    n as usize + 1
}

// A plain line of a program of so many variables.
pub fn plain_line(out: &mut [u8], place: usize, line: Numbers, variables: u8) -> usize
    ensures { Written (T.plain_code variables (plain_of line)) place out.old out.new result }
{
    let b = register(line.index);
    let a = register(line.source);
    let kind = line.kind;
    match kind {
        command::CLEAR => clearing(&mut *out, place, b),
        command::INCREMENT => put_instruction(&mut *out, place, b, APPEND),
        _ => {
            if line.index == line.source {
                testing(&mut *out, place, a, 2)
            } else {
                copying(&mut *out, place, a, b, register(variables))
            }
        }
    }
}

// C a, F4, +c, +t, B4, C t, F3, +a, B3, C c, Fn: what stands before the body of a LOOP
fn looping(out: &mut [u8], place: usize, a: usize, c: usize, t: usize, n: usize) -> usize
    ensures { Written (looping a c t n) place out.old out.new result }
{
    let shared = sharing(&mut *out, place, a, c, t);
    let returned = returning(&mut *out, shared, t, a);
    let last = put_instruction(&mut *out, returned, c, CASES);
    put_instruction(&mut *out, last, n, FORWARD)
}

// The transfer across a body of m instructions, of the pair that a line of this kind opens: m+2 for a LOOP, m+3 for a WHILE.
fn across(kind: u8, m: u16) -> usize
    ensures { result ≡ across kind m }
{
    match kind {
        command::LOOP => m as usize + 2,
        _ => m as usize + 3,
    }
}

// What stands before the body of a pair that the line opens, inside `depth` loops, with a body of m instructions.
pub fn before_body(
    out: &mut [u8],
    place: usize,
    line: Numbers,
    variables: u8,
    depth: u8,
    m: u16,
) -> usize
    ensures { Written (front variables depth line m) place out.old out.new result }
{
    let a = register(line.index);
    let kind = line.kind;
    let n = across(kind, m);
    match kind {
        command::LOOP => {
            let c = variables as usize + 2 + depth as usize;
            looping(&mut *out, place, a, c, register(variables), n)
        }
        _ => testing(&mut *out, place, a, n),
    }
}

// What stands after it: B(m+2) or B(m+3).
pub fn after_body(out: &mut [u8], place: usize, kind: u8, m: u16) -> usize
    ensures { Written (back kind m) place out.old out.new result }
{
    put_instruction(out, place, across(kind, m), BACKWARD)
}
