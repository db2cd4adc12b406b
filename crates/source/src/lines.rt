// Where the lines of pairs lead, found once for a run: the line to which each jumps, and the passes-left that it sets or counts.
ghost use Rattle.std.specs.Prelude.{◌≡◌, ◌+◌, ◌<◌, length, set};
ghost use Rattle.source.specs.Lines.{Fits, Entered, Linked};

use command::{ENDLOOP, ENDWHILE, LOOP, WHILE};
use program::Program;

// Fills, for each line, the entry of the passes-left of the loop that it opens or closes.
pub fn fill_entries(list: &[u8], lines: usize, entries: &mut [u8])
    requires { Fits list.now lines entries.old }
    ensures { Entered list.now entries.new }
{
    let mut deep: u8 = 0;
    for n in 0..lines {
        match list[3 * n] {
            LOOP => {
                entries[n] = deep;
                deep += 1;
            }
            ENDLOOP => {
                deep -= 1;
                entries[n] = deep;
            }
            _ => entries[n] = deep,
        }
    }
}

// Sets the targets of a pair, its lines counted from 0: from the first, the line past the last; from the last, the first or past it.
fn link(targets: &mut [u16], first: usize, last: usize, past: usize)
    requires { (first < 512) × (last < 512) × (past < 3) × (first < length targets.old) × (last < length targets.old) }
    ensures { targets.new ≡ set (set targets.old first (last + 2)) last (first + past) }
{
    targets[first] = (last + 2) as u16;
    targets[last] = (first + past) as u16;
}

// Fills, for each line of a pair, the line to which its step jumps, with a stack of the lines that are open.
pub fn fill_targets(list: &[u8], lines: usize, targets: &mut [u16])
    requires { Fits list.now lines targets.old }
    ensures { Linked list.now targets.new }
{
    let mut stack = [0usize; Program::OPEN];
    let mut deep = 0;
    for n in 0..lines {
        match list[3 * n] {
            LOOP | WHILE => {
                stack[deep] = n;
                deep += 1;
            }
            ENDLOOP => {
                deep -= 1;
                link(targets, stack[deep], n, 2);
            }
            ENDWHILE => {
                deep -= 1;
                link(targets, stack[deep], n, 1);
            }
            _ => {}
        }
    }
}
