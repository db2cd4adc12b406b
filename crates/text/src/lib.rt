// What stands at a place of a text: how far a run goes, where a line ends, a word. A place past the end has nothing at it. And whether a
// text has ended, and whether bytes are the symbols of a word.
#![tactic(auto)]

ghost use Rattle.std.specs.Prelude.{◌≡◌, ◌||◌, ◌+◌, ◌-◌, eqb, length, drop};
ghost use Rattle.theory.specs.Basics.{all};
ghost use Rattle.theory.specs.Text.{LF, ends_in_LF, following};
ghost use Rattle.theory.specs.Word.{is_symbol};
ghost use Rattle.text.specs.Runs.{run, before};
ghost use Rattle.text.specs.Words.{is_some};

// The most bytes of a program's or a listing's text (rule 1).
pub const BYTES: usize = 16384;

// Where the first such byte stands, from a place on; the text's end where none does.
pub fn find(text: &[u8], at: usize, byte: u8) -> usize
    ensures { result ≡ at + before byte (drop at text.now) }
{
    for i in at..text.len() {
        if text[i] == byte {
            return i;
        }
    }
    text.len().max(at)
}

// Where the line ends that a place is in: at its LF, or at the text's end.
pub fn line_end(text: &[u8], at: usize) -> usize
    ensures { result ≡ at + before LF (drop at text.now) }
{
    find(text, at, b'\n')
}

// Whether a text is empty or ends in LF, which rule 2 asks.
pub fn is_ended(text: &[u8]) -> bool
    ensures { result ≡ (eqb (length text.now) 0 || ends_in_LF text.now) }
{
    if text.len() == 0 {
        return true;
    }
    text[text.len() - 1] == b'\n'
}

// Where the run of a byte ends that starts at a place.
pub fn run_end(text: &[u8], at: usize, byte: u8) -> usize
    ensures { result ≡ at + run byte (drop at text.now) }
{
    for next in at..text.len() {
        if text[next] != byte {
            return next;
        }
    }
    text.len().max(at)
}

// Whether a word stands at a place. Always inlined: of a word that is written out a few bytes are compared at once.
#[inline(always)]
pub fn stands(text: &[u8], at: usize, word: &[u8]) -> bool
    ensures { result ≡ is_some (following word.now (drop at text.now)) }
{
    text[at.min(text.len())..].starts_with(word)
}

// How far two bytes are apart.
fn distance(a: u8, b: u8) -> u8
    ensures { result ≡ (a - b) + (b - a) }
{
    if a < b { b - a } else { a - b }
}

// The byte in the middle between a # and a 1, and how far it is from both.
const MIDDLE: u8 = 42;

const AWAY: u8 = 7;

// Whether each byte is a 1 or a #. All are looked at, and with one test: without an early end many are tested at once.
pub fn are_symbols(bytes: &[u8]) -> bool
    ensures { result ≡ all is_symbol bytes.now }
{
    let mut ok = true;
    for byte in bytes {
        if distance(*byte, MIDDLE) != AWAY {
            ok = false;
        }
    }
    ok
}
