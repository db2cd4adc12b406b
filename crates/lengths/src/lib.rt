// How long the instructions of a plain line and of the two ends of a pair are (document 01, "Translation"), without writing them. Indices,
// variables and depths are bytes, and the instructions of a body a u16, so that no sum of them wraps.
#![tactic(auto)]

ghost use Rattle.std.specs.Prelude.{◌++◌, ◌≡◌};
ghost use Rattle.theory.specs.Translation.{plain_code};
ghost use Rattle.emit.specs.Pieces.{plain_of, front, back};
ghost use Rattle.lengths.specs.Lengths.{length_of};

use command::Numbers;

// So many instructions, of so many symbols.
#[derive(Clone, Copy)]
pub struct Length {
    pub instructions: u16,
    pub symbols: usize,
}

fn length_of(instructions: u16, symbols: usize) -> Length
    ensures { result ≡ record { instructions = instructions; symbols = symbols } }
{
    Length {
        instructions,
        symbols,
    }
}

// A plain line of a program of so many variables: clear, increment, copy to itself, copy.
pub fn line_size(line: Numbers, variables: u8) -> Length
    ensures { result ≡ length_of (plain_code variables (plain_of line)) }
{
    let b = line.index as usize + 1;
    let a = line.source as usize + 1;
    let kind = line.kind;
    match kind {
        command::CLEAR => length_of(3, b + 16),
        command::INCREMENT => length_of(1, b + 1),
        _ => {
            if line.index == line.source {
                length_of(3, 2 * a + 11)
            } else {
                let t = variables as usize + 1;
                length_of(12, 2 * (a + b + t) + 57)
            }
        }
    }
}

// What stands before and after a body of m instructions, of the LOOP or WHILE that a line opens inside `depth` loops.
pub fn ends_size(line: Numbers, variables: u8, depth: u8, m: u16) -> Length
    ensures { result ≡ length_of (front variables depth line m ++ back line.kind m) }
{
    let both = line.index as usize + 1 + m as usize;
    let kind = line.kind;
    match kind {
        command::LOOP => {
            let t = variables as usize + 1;
            let c = t + 1 + depth as usize;
            length_of(12, 2 * (both + c + t) + 57)
        }
        _ => length_of(4, 2 * both + 19),
    }
}
