// The run tool's text for a lent output (document 01, "Run sheet and run tool"): from a program's text and a sheet's to the whole of what
// is printed; and the same on registers of other capacities (document 02, request 5).
#![tactic(auto)]

ghost use Rattle.std.specs.Prelude.{◌≡◌};
ghost use Rattle.theory.specs.TurnedDown.{lent_after};
ghost use Rattle.theory.specs.RunTool.{tool_capacities};
ghost use Rattle.report.specs.Answers.{reported, report_into};

use registers::Machine;
use report_text::put_report;
use theory::{Refusal, refused};

// "Its word buffer has 65,536 bytes".
pub const WORD: usize = report_text::WORD;

// "capacity 1,024".
pub const CAPACITY: u16 = 1024;

// Bytes that are enough for any report: the header's 47, and 36 for each row, of which there are 4,095 at most.
pub const MOST: usize = 147467;

// The report of a program's text and a sheet's on registers of these capacities, at the start of an output: it has so many bytes, or
// does not fit. Where the output may be too short the text is measured first.
pub fn report_on(
    text: &[u8],
    sheet: &[u8],
    capacities: &[u16],
    out: &mut [u8],
) -> Result<usize, Refusal>
    ensures value { result ≡ reported
        (report_into out.old capacities.now text.now sheet.now) }
    ensures out_after { out.new ≡ lent_after out.old
        (report_into out.old capacities.now text.now sheet.now) }
{
    if out.len() < MOST {
        let mut nothing = [0u8; 1];
        if out.len() < put_report(text, sheet, capacities, &mut nothing) {
            return refused(19, 0);
        }
    }
    Ok(put_report(text, sheet, capacities, out))
}

// The same on "64 registers, capacity 1,024".
pub fn report(text: &[u8], sheet: &[u8], out: &mut [u8]) -> Result<usize, Refusal>
    ensures value { result ≡ reported (report_into out.old tool_capacities text.now sheet.now) }
    ensures out_after { out.new
        ≡ lent_after out.old (report_into out.old tool_capacities text.now sheet.now) }
{
    let capacities = [CAPACITY; Machine::REGISTERS];
    report_on(text, sheet, &capacities, out)
}
