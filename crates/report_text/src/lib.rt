// The run tool's text (document 01, "Run sheet and run tool") on registers of any capacities (document 02, request 5), put from the first
// byte of an output on: from a program's text and a sheet's to the whole of what is printed.
#![tactic(auto)]

mod rows; // rows.rt: the runs of a row

ghost use Rattle.std.specs.Prelude.{◌++◌};
ghost use Rattle.theory.specs.Text.{split_lines};
ghost use Rattle.theory.specs.RunTool as RunTool;
ghost use Rattle.theory.specs.RunTool.{header, rows_of};
ghost use Rattle.theory.specs.ProgramText.{commands};
ghost use Rattle.report_text.specs.Rows.{Listed, Ready, Tabled, Given, Roomy, program_report};
ghost use Rattle.report_text.specs.Printed.{Printed};
ghost use Rattle.report_text.specs.Fresh.{IsSet};

use printing::{put_header, put_refusal, put_row};
use program::Program;
use rows::run_row;
use sheet::Names;
use theory::Setting;
use tidy::Form;
use word::Instruction;

// "Its word buffer has 65,536 bytes".
pub const WORD: usize = 65536;

// The header, and a line for each row of an accepted sheet.
fn put_rows(
    list: &[u8],
    kinds: &[u8],
    operands: &[u32],
    variables: usize,
    capacities: &[u16],
    sheet: &[u8],
    names: Names,
    out: &mut [u8],
) -> usize
    requires { Tabled list.now kinds.now operands.now variables × IsSet capacities.now
        × Given capacities.now sheet.now names variables }
    ensures { Printed
        (header ++ rows_of capacities.now (commands list.now) (split_lines sheet.now))
        out.old out.new result }
{
    let limits = capacities::of_variables(capacities);
    let mut place = put_header(&mut *out);
    let mut at = sheet::first_row(sheet);
    let mut n: usize = 2;
    while at < sheet.len() {
        let line = sheet::row(sheet, names, limits, n, at);
        let values = line.values;
        let row = run_row(list, kinds, operands, variables, capacities, limits, values);
        place = put_row(&mut *out, place, row);
        at = line.next;
        n += 1;
    }
    place
}

// The same for the program's word, which is read once for all rows. A refusal does not come: a word of the translation passes every rule.
fn put_word_rows(
    list: &[u8],
    word: &[u8],
    variables: usize,
    capacities: &[u16],
    sheet: &[u8],
    names: Names,
    out: &mut [u8],
) -> usize
    requires { Ready list.now word.now variables × IsSet capacities.now × Given capacities.now sheet.now names variables }
    ensures { Printed
        (header ++ rows_of capacities.now (commands list.now) (split_lines sheet.now))
        out.old out.new result }
{
    let mut kinds = [0u8; Instruction::INSTRUCTIONS];
    let mut operands = [0u32; Instruction::INSTRUCTIONS];
    match word::read(word, &mut kinds, &mut operands) {
        Ok(count) => put_rows(
            list,
            &kinds[..count],
            &operands[..count],
            variables,
            capacities,
            sheet,
            names,
            out,
        ),
        Err(r) => put_refusal(out, r),
    }
}

// An accepted program and sheet: a word that is longer than the buffer is 19.
fn put_translated(
    list: &[u8],
    variables: usize,
    capacities: &[u16],
    sheet: &[u8],
    names: Names,
    out: &mut [u8],
) -> usize
    requires { Listed list.now variables × Roomy capacities.now (commands list.now)
        × Given capacities.now sheet.now names variables }
    ensures { Printed (program_report capacities.now (commands list.now) sheet.now)
        out.old out.new result }
{
    let mut word = [0u8; WORD];
    match translation::translate_list(Setting::Any, Form::Plain, list, &mut word) {
        Err(r) => put_refusal(out, r),
        Ok(size) => {
            let end = size.symbols;
            put_word_rows(list, &word[..end], variables, capacities, sheet, names, out)
        }
    }
}

// An accepted program and capacities that have room for its word: rules 16 to 18 of its sheet, and then the rows.
fn put_roomy(
    list: &[u8],
    variables: usize,
    capacities: &[u16],
    sheet: &[u8],
    out: &mut [u8],
) -> usize
    requires { Listed list.now variables × Roomy capacities.now (commands list.now) }
    ensures { Printed (program_report capacities.now (commands list.now) sheet.now)
        out.old out.new result }
{
    match sheet::check(sheet, variables, capacities::of_variables(capacities)) {
        Err(r) => put_refusal(out, r),
        Ok(found) => put_translated(list, variables, capacities, sheet, found.names, out),
    }
}

// An accepted program: rules 10 and 21 of the capacities, and then its sheet.
fn put_accepted(
    list: &[u8],
    variables: usize,
    capacities: &[u16],
    sheet: &[u8],
    out: &mut [u8],
) -> usize
    requires { Listed list.now variables }
    ensures { Printed (program_report capacities.now (commands list.now) sheet.now)
        out.old out.new result }
{
    match capacities::check(list, capacities) {
        Err(r) => put_refusal(out, r),
        Ok(_) => put_roomy(list, variables, capacities, sheet, out),
    }
}

// The text, put from the first byte of an output on: rules 1 to 8 come first.
pub fn put_report(text: &[u8], sheet: &[u8], capacities: &[u16], out: &mut [u8]) -> usize
    ensures { Printed (RunTool.report_on capacities.now text.now sheet.now)
        out.old out.new result }
{
    let mut list = [0u8; Program::NUMBERS];
    match program::read(Setting::Any, text, &mut list) {
        Err(r) => put_refusal(out, r),
        Ok(p) => {
            let end = 3 * p.lines;
            put_accepted(&list[..end], p.variables, capacities, sheet, out)
        }
    }
}
