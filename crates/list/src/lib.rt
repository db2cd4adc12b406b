// A program as a list of three numbers a command (document 01, "The program text"), checked by rules 3 to 8 and, under the LOOP-only
// setting, 20.
#![tactic(auto)]

ghost use Rattle.std.specs.Prelude.{◌≡◌, suc, max};
ghost use Rattle.theory.specs.TurnedDown.{read_list_under};
ghost use Rattle.nesting.specs.Nesting.{pairs};
ghost use Rattle.list.specs.Answers.{checked, at_end};

use nesting::{Opening, judge};
use theory::{Refusal, Setting, refused};

// What is known of an accepted program: its number of commands, and K, the highest index named plus 1.
#[derive(Clone, Copy)]
pub struct Program {
    pub lines: usize,
    pub variables: usize,
}

// The limits of a program, and the numbers of its list: three a command.
impl Program {
    pub const LINES: usize = 512;

    pub const OPEN: usize = Opening::MOST;

    pub const NUMBERS: usize = 1536;
}

// The places of the openings, in the order of their lines from number 1 on: number 0 for none, those of the pairs that may be open
// together, and one more for the line that comes next.
const PLACES: usize = Program::OPEN + 2;

// K after one more index: the highest so far plus 1, or this one plus 1.
fn named(variables: usize, index: u8) -> usize
    ensures { result ≡ max variables (suc index) }
{
    variables.max(usize::from(index) + 1)
}

// Rule 8, where so many pairs are left open and the innermost is `last`.
fn ended(count: usize, last: Opening, program: Program) -> Result<Program, Refusal>
    ensures { result ≡ at_end program (pairs count last) }
{
    if count == 0 {
        Ok(program)
    } else {
        refused(8, last.line)
    }
}

// Rules 3 to 8 under a setting, the commands of a list taken as lines: what is known of the program, or the first rule that applies. Every command is put where an opening would stand; it counts where
// it is one.
pub fn check_list(setting: Setting, list: &[u8]) -> Result<Program, Refusal>
    ensures { result ≡ checked (read_list_under setting list.now) }
{
    if Program::NUMBERS < list.len() {
        return refused(3, Program::LINES + 1);
    }
    let none = Opening {
        line: 0,
        kind: 0,
        index: 0,
    };
    let mut openings = [none; PLACES];
    let mut count = 0;
    let mut variables = 0;
    let lines = list.len() / 3;
    for i in 0..lines {
        let kind = list[3 * i];
        let index = list[3 * i + 1];
        let source = list[3 * i + 2];
        let last = openings[count];
        let line = i + 1;
        openings[count + 1] = Opening { line, kind, index };
        count = judge(setting, count, last, line, kind, index, source)?;
        variables = named(named(variables, index), source);
    }
    if 3 * lines < list.len() {
        return refused(4, lines + 1);
    }
    let last = openings[count];
    ended(count, last, Program { lines, variables })
}
