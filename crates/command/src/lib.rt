// A command as three numbers (document 01, "The program text"), read from a line of a program's text.
#![tactic(auto)]

mod reading;

pub use reading::numbers_of;

// The kinds of commands, in the order of the spellings. They are numbers and no enum: C lends a list as bytes, any of which may stand where
// a kind is read, and what is answered then is promised too.
pub const CLEAR: u8 = 1;

pub const INCREMENT: u8 = 2;

pub const COPY: u8 = 3;

pub const LOOP: u8 = 4;

pub const ENDLOOP: u8 = 5;

pub const WHILE: u8 = 6;

pub const ENDWHILE: u8 = 7;

// Kind (0 where a line is none of the spellings), index, and a copy's source index. An index above 31 is 32.
#[derive(Clone, Copy)]
pub struct Numbers {
    pub kind: u8,
    pub index: u8,
    pub source: u8,
}

impl Numbers {
    pub const INDEX: u8 = 31;
}
