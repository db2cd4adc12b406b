// The types that this crate's entries take and hand back.
use theory::Refusal;

// The names line of a sheet, read: the variables of the columns in order, the first `count` of the array.
#[derive(Clone, Copy)]
pub struct Names {
    pub columns: [u8; Names::COLUMNS],
    pub count: usize,
}

impl Names {
    pub const COLUMNS: usize = columns::COLUMNS;
}

// A sheet that every rule lets pass: its names, and the number of its rows.
#[derive(Clone, Copy)]
pub struct Sheet {
    pub names: Names,
    pub rows: usize,
}

impl Sheet {
    pub const BYTES: usize = 4096;
}

// A line of values, read: the values that the 32 variables start at, the byte behind the line, and why it is turned down, if it is.
#[derive(Drop)]
pub struct Row {
    pub values: [u32; Names::COLUMNS],
    pub next: usize,
    pub fault: Option<Refusal>,
}
