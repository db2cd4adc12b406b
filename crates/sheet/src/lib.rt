// Run sheets (document 01, "Run sheet and run tool"): a sheet checked against a program by rules 16 to 18, and a line of values read into
// what a run starts at.
#![tactic(auto)]

mod answers; // answers.rt: what the entries take and hand back

ghost use Rattle.std.specs.Prelude.{◌≡◌, ◌≤◌, min, length, take, drop};
ghost use Rattle.theory.specs.Text.{split_lines};
ghost use Rattle.sheet.specs.Answers.{sheet_answer, row_answer, after_line};
ghost use Rattle.sheet.specs.Lines.{names_told, values_told, heading, Scans, rows_as, is_sheet_size};

pub use answers::{Names, Row, Sheet};
use columns::{all_within, named_columns, spread};
use fields::{Line, read_line};
use text::find;
use theory::{Refusal, refused};

// The line of names: its names, and the byte behind the line.
#[derive(Clone, Copy)]
struct Heading {
    names: Names,
    next: usize,
}

// A line of values: its numbers, before they go to their variables, or why it is turned down; and the byte behind the line.
#[derive(Clone, Copy)]
struct Scanned {
    numbers: Result<[u32; Names::COLUMNS], Refusal>,
    next: usize,
}

// Rules 16 and 17, for the line of names.
fn as_names(line: Option<Line>) -> Result<Names, Refusal>
    ensures { result ≡ names_told line }
{
    let Some(line) = line else {
        return refused(16, 1);
    };
    if !line.below {
        return refused(17, 1);
    }
    let count = line.count;
    match named_columns(line.numbers, count) {
        Some(columns) => Ok(Names { columns, count }),
        None => refused(17, 1),
    }
}

// Rules 16 and 18, for line `n` of the sheet.
fn as_values(
    line: Option<Line>,
    names: Names,
    capacities: [u32; Names::COLUMNS],
    n: usize,
) -> Result<[u32; Names::COLUMNS], Refusal>
    ensures { result ≡ values_told capacities names n line }
{
    let Some(line) = line else {
        return refused(16, n);
    };
    if line.count != names.count {
        return refused(16, n);
    }
    let numbers = line.numbers;
    let within = all_within(capacities, names.columns, names.count, numbers);
    if line.below && within {
        Ok(numbers)
    } else {
        refused(18, n)
    }
}

// The first line, as names for a program of so many variables, at most 32.
fn read_names(sheet: &[u8], variables: usize) -> Result<Heading, Refusal>
    ensures { result ≡ heading (min variables 32) sheet.now }
{
    let end = find(sheet, 0, b'\n');
    let bound = variables.min(Names::COLUMNS) as u64;
    let names = as_names(read_line(&sheet[0..end], true, bound))?;
    let next = (end + 1).min(sheet.len());
    Ok(Heading { names, next })
}

// The line that begins at `at`, as line `n` of values. A number that is too large for 32 bits is above any capacity.
// Always inlined, so that the numbers are not copied on the way to the caller.
#[inline(always)]
fn scan(
    sheet: &[u8],
    names: Names,
    capacities: [u32; Names::COLUMNS],
    n: usize,
    at: usize,
) -> Scanned
    requires { names.count ≤ 32 }
    ensures { Scans sheet.now names capacities n at result }
{
    let from = at.min(sheet.len());
    let end = find(sheet, from, b'\n');
    let line = read_line(&sheet[from..end], false, Line::ABOVE);
    Scanned {
        numbers: as_values(line, names, capacities, n),
        next: (end + 1).min(sheet.len()),
    }
}

// Every line of values, of which the first begins at `from`: how many there are.
fn rows(
    sheet: &[u8],
    names: Names,
    capacities: [u32; Names::COLUMNS],
    from: usize,
) -> Result<usize, Refusal>
    requires { (names.count ≤ 32) × (from ≤ length sheet.now) }
    ensures { result ≡ rows_as capacities (take names.count names.columns) (split_lines (drop from sheet.now)) }
{
    let mut at = from;
    let mut n: usize = 2;
    while at < sheet.len() {
        let line = scan(sheet, names, capacities, n, at);
        line.numbers?;
        at = line.next;
        n += 1;
    }
    Ok(n - 2)
}

// The size rules of 16.
fn is_sized(sheet: &[u8]) -> bool
    ensures { result ≡ is_sheet_size sheet.now }
{
    if sheet.len() == 0 {
        return false;
    }
    if Sheet::BYTES < sheet.len() {
        return false;
    }
    sheet[sheet.len() - 1] == b'\n'
}

// Rules 16 to 18 of a whole sheet, for a program of so many variables, at most 32, of these capacities.
pub fn check(
    sheet: &[u8],
    variables: usize,
    capacities: [u32; Names::COLUMNS],
) -> Result<Sheet, Refusal>
    ensures { result ≡ sheet_answer (min variables 32) capacities sheet.now }
{
    if !is_sized(sheet) {
        return refused(16, 0);
    }
    let head = read_names(sheet, variables)?;
    let names = head.names;
    let count = rows(sheet, names, capacities, head.next)?;
    Ok(Sheet { names, rows: count })
}

// Line `n` of the sheet, a line of values that begins at byte `at`.
pub fn row(
    sheet: &[u8],
    names: Names,
    capacities: [u32; Names::COLUMNS],
    n: usize,
    at: usize,
) -> Row
    ensures { result ≡ row_answer sheet.now names capacities n at }
{
    let columns = names.columns;
    let count = names.count.min(Names::COLUMNS);
    let line = scan(sheet, Names { columns, count }, capacities, n, at);
    let next = line.next;
    match line.numbers {
        Ok(numbers) => Row {
            values: spread(columns, count, numbers),
            next,
            fault: None,
        },
        Err(r) => Row {
            values: [0; Names::COLUMNS],
            next,
            fault: Some(r),
        },
    }
}

// The byte behind the names line, where line 2 begins.
pub fn first_row(sheet: &[u8]) -> usize
    ensures { result ≡ after_line sheet.now 0 }
{
    (find(sheet, 0, b'\n') + 1).min(sheet.len())
}
