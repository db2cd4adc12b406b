// What a step does, by numbers alone.
ghost use Rattle.std.specs.Prelude.{◌≡◌};
ghost use Rattle.source_state.specs.Numbers.{stored, led};

use command::{CLEAR, ENDLOOP, INCREMENT, LOOP, WHILE};

// The line after a step at a line of a pair, and the passes left then of the loop that the line opens or closes.
#[derive(Clone, Copy)]
pub struct Led {
    pub line: u32,
    pub left: u32,
}

// What a plain command stores in its variable, by what that holds, of a copy what the variable that is copied holds, and the capacity of
// the first; `None` where the step would be full.
pub fn store(kind: u8, held: u32, source: u32, capacity: u32) -> Option<u32>
    ensures { result ≡ stored kind held source capacity }
{
    match kind {
        CLEAR => Some(0),
        INCREMENT => {
            if held < capacity {
                Some(held + 1)
            } else {
                None
            }
        }
        _ => {
            if source <= capacity {
                Some(source)
            } else {
                None
            }
        }
    }
}

// A line of a pair, by what its variable holds and the passes left. A pass may change the loop's variable: what counts is the passes left.
pub fn lead(kind: u8, held: u32, left: u32, next: u32, target: u32) -> Led
    ensures { result ≡ led kind held left next target }
{
    match kind {
        LOOP => {
            if held == 0 {
                return Led { line: target, left };
            }
            Led {
                line: next,
                left: held,
            }
        }
        ENDLOOP => {
            if left <= 1 {
                return Led {
                    line: next,
                    left: 0,
                };
            }
            let fewer = left - 1;
            Led {
                line: target,
                left: fewer,
            }
        }
        WHILE => {
            if held == 0 {
                return Led { line: target, left };
            }
            Led { line: next, left }
        }
        _ => Led { line: target, left },
    }
}
