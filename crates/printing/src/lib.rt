// The parts of the report, each put into an output from a place on. A byte that has no place in the output is counted and not written,
// so that an output without a byte serves to measure.
#![tactic(auto)]

ghost use Rattle.theory.specs.RunTool.{end_name, header};
ghost use Rattle.output.specs.Puts.{Put};
ghost use Rattle.printing.specs.Lines.{Few, field, ended, row_line, refusal_line};

use decimals::put_number;
use output::{put_byte, put_bytes};
use theory::{End, Ended, Refusal};

// What is printed of a row: the source's run, its word's, and the source's X0 then.
#[derive(Clone, Copy)]
pub struct Row {
    pub source: Ended,
    pub word: Ended,
    pub first: u32,
}

// The name of an end.
fn put_end(out: &mut [u8], place: usize, end: End) -> usize
    ensures { Put (end_name end) place out.old out.new result }
{
    match end {
        End::Halted => put_bytes(out, place, b"halted"),
        End::Strayed => put_bytes(out, place, b"strayed"),
        End::Spent => put_bytes(out, place, b"spent"),
        End::Full => put_bytes(out, place, b"full"),
    }
}

// The first line.
pub fn put_header(out: &mut [u8]) -> usize
    ensures { Put header 0 out.old out.new result }
{
    put_bytes(out, 0, b"source-end source-steps word-end word-steps X0\n")
}

// A number, and the blank or LF after it.
fn put_field(out: &mut [u8], place: usize, n: usize, last: u8) -> usize
    ensures { Few 21 (field n last) place out.old out.new result }
{
    let next = put_number(&mut *out, place, n);
    put_byte(&mut *out, next, last)
}

// How a run ended, and the blanks after it and its steps.
fn put_ended(out: &mut [u8], place: usize, run: Ended) -> usize
    ensures { Put (ended run) place out.old out.new result }
{
    let end = run.end;
    let next = put_end(&mut *out, place, end);
    let steps = put_byte(&mut *out, next, b' ');
    put_field(&mut *out, steps, run.steps as usize, b' ')
}

// The line of a row.
pub fn put_row(out: &mut [u8], place: usize, row: Row) -> usize
    ensures { Put (row_line row) place out.old out.new result }
{
    let source = row.source;
    let word = row.word;
    let second = put_ended(&mut *out, place, source);
    let third = put_ended(&mut *out, second, word);
    put_field(&mut *out, third, row.first as usize, b'\n')
}

// "On a refusal it prints only `refused`, the number and the place".
pub fn put_refusal(out: &mut [u8], refusal: Refusal) -> usize
    ensures { Few 50 (refusal_line refusal) 0 out.old out.new result }
{
    let number = put_bytes(&mut *out, 0, b"refused ");
    let place = put_field(&mut *out, number, refusal.number as usize, b' ');
    put_field(&mut *out, place, refusal.place, b'\n')
}
