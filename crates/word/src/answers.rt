// The types that this crate's entries take and hand back.
// An instruction: its kind, the number of # (1 to 5), and its operand, the number of 1s before them.
#[derive(Clone, Copy)]
pub struct Instruction {
    pub kind: u8,
    pub operand: u32,
}

impl Instruction {
    pub const SYMBOLS: usize = 600000;

    pub const INSTRUCTIONS: usize = 8192;

    pub const KINDS: u8 = 5;

    // The kinds: a 1 appended, a # appended, forward, backward, and cases on the first symbol of a register. They are numbers and no enum:
    // C lends a table as numbers, any of which may stand where a kind is read, and rule 13 turns the others down.
    pub const APPEND_ONE: u8 = 1;

    pub const APPEND_HASH: u8 = 2;

    pub const FORWARD: u8 = 3;

    pub const BACKWARD: u8 = 4;

    pub const CASES: u8 = 5;
}

// An instruction of a word, and where the next one starts. Kind 0 stands for a number of # that is none of 1 to 5, and an operand of more
// than 32 bits for the largest number of 32 bits: no Option, since of those too it is told where the next one starts.
#[derive(Clone, Copy)]
pub struct Item {
    pub kind: u8,
    pub operand: u32,
    pub next: usize,
}
