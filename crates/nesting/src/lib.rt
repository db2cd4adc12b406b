// One command under the setting and the pairs that are open (document 01, rules 4 to 7, and document 02's 20): it is at fault, or so many
// pairs are open after it.
#![tactic(auto)]

ghost use Rattle.std.specs.Prelude.{◌≡◌, ◌+◌, ◌-◌, ◌&&◌, eqb, ltb};
ghost use Rattle.theory.specs.Limits.{most_open};
ghost use Rattle.theory.specs.ProgramText.{closes, command_of};
ghost use Rattle.theory.specs.TurnedDown.{unless, same_kind, pair_fault};
ghost use Rattle.nesting.specs.Nesting.{kind_of, pairs, verdict, judged, is_known, is_banned};

use command::{CLEAR, COPY, ENDLOOP, ENDWHILE, LOOP, Numbers, WHILE};
use theory::{Refusal, Setting, refused};

// A line that opens a pair: its number, its kind (LOOP or WHILE) and its index.
#[derive(Clone, Copy)]
pub struct Opening {
    pub line: usize,
    pub kind: u8,
    pub index: u8,
}

impl Opening {
    // How many pairs may be open together.
    pub const MOST: usize = 16;
}

// Whether three numbers are a command, whatever the index.
fn is_command(kind: u8, source: u8) -> bool
    ensures { result ≡ is_known kind source }
{
    match kind {
        0 => false,
        COPY => true,
        CLEAR..=ENDWHILE => source == 0,
        _ => false,
    }
}

// Whether a setting bans a command of this kind: rule 20.
fn is_banned(setting: Setting, kind: u8) -> bool
    ensures { result ≡ is_banned setting kind }
{
    match setting {
        Setting::Any => false,
        Setting::LoopOnly => WHILE <= kind,
    }
}

// Whether two lines, each of which opens or closes a pair, are of one kind.
fn are_alike(kind: u8, other: u8) -> bool
    ensures { result ≡ same_kind (kind_of kind) (kind_of other) }
{
    if kind < WHILE {
        other < WHILE
    } else {
        WHILE <= other
    }
}

// A line that opens a pair, where so many are open: rule 6.
fn opened(count: usize, line: usize) -> Result<usize, Refusal>
    ensures { result ≡ verdict (count + 1) (unless (ltb count most_open) 6 line) }
{
    if count < Opening::MOST {
        Ok(count + 1)
    } else {
        refused(6, line)
    }
}

// Whether a line that closes a pair of this kind and index fits, where so many are open and the innermost is `last`.
fn fits(count: usize, last: Opening, kind: u8, index: u8) -> bool
    ensures { result ≡ (ltb 0 count && (same_kind (kind_of kind) (kind_of last.kind) && eqb index last.index)) }
{
    if 0 < count {
        if are_alike(kind, last.kind) {
            return index == last.index;
        }
    }
    false
}

// A line that closes a pair, likewise: rule 7.
fn closed(count: usize, last: Opening, line: usize, kind: u8, index: u8) -> Result<usize, Refusal>
    ensures { result ≡ verdict (count - 1) (pair_fault line (pairs count last) (closes (kind_of kind) index)) }
{
    if fits(count, last, kind, index) {
        Ok(count - 1)
    } else {
        refused(7, line)
    }
}

// A command at a line, where so many pairs are open and the innermost is `last`: rules 4 and 5, then 20, then 6 and 7.
pub fn judge(
    setting: Setting,
    count: usize,
    last: Opening,
    line: usize,
    kind: u8,
    index: u8,
    source: u8,
) -> Result<usize, Refusal>
    ensures { result ≡ judged setting line (pairs count last) (command_of kind index source) }
{
    if !is_command(kind, source) {
        return refused(4, line);
    }
    if Numbers::INDEX < index.max(source) {
        return refused(5, line);
    }
    if is_banned(setting, kind) {
        return refused(20, line);
    }
    match kind {
        LOOP | WHILE => opened(count, line),
        ENDLOOP | ENDWHILE => closed(count, last, line, kind, index),
        _ => Ok(count),
    }
}
