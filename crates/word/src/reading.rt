// Reading a word: rules 11 to 14 in order, with byte offsets as places, and then 19. Nothing is written before the count is known.
ghost use Rattle.std.specs.Prelude.{◌≡◌, ◌+◌, ◌≤◌, min, length};
ghost use Rattle.theory.specs.Limits.{most_symbols};
ghost use Rattle.theory.specs.TurnedDown.{read_word};
ghost use Rattle.word.specs.Answers.{read_answer, Reads};
ghost use Rattle.word.specs.Scan.{symbols, kind_number, widest, item_at, fault_place};
ghost use Rattle.word.specs.Scan.{Readable, scan_answer, Fillable, Filled};

use crate::answers::{Instruction, Item};
use counting::count;
use text::run_end;
use theory::{Refusal, refused};

// The largest number of 32 bits.
const WIDEST: usize = 4294967295;

// The place of the first byte that is neither 1 nor #, or the length.
fn symbols_end(word: &[u8]) -> usize
    ensures { result ≡ symbols word.now }
{
    for (i, &b) in word.iter().enumerate() {
        if b != b'1' && b != b'#' {
            return i;
        }
    }
    word.len()
}

// The kind that a number of # makes, 1 to 5, and 0 for any other.
fn kind_of(hashes: usize) -> u8
    ensures { result ≡ kind_number hashes }
{
    if hashes <= Instruction::KINDS as usize {
        return hashes as u8;
    }
    0
}

// The operand that a number of 1s makes.
fn operand_of(ones: usize) -> u32
    ensures { result ≡ min ones widest }
{
    if ones <= WIDEST {
        return ones as u32;
    }
    4294967295
}

// The item that starts at `at`; one without symbols where the word ends before it.
pub fn item_at(word: &[u8], at: usize) -> Item
    ensures { result ≡ item_at word.now at }
{
    let middle = run_end(word, at, b'1');
    let next = run_end(word, middle, b'#');
    Item {
        kind: kind_of(next - middle),
        operand: operand_of(middle - at),
        next,
    }
}

// Where an item that starts at `at` and is no instruction has its fault: at its start where it has no 1, at its end where it has no #,
// and else at its sixth #.
fn fault_place(at: usize, e: Item) -> usize
    requires { at + e.operand ≤ most_symbols }
    ensures { result ≡ fault_place at e }
{
    let operand = e.operand as usize;
    if operand == 0 {
        return at;
    }
    let middle = at + operand;
    if e.next == middle {
        return middle;
    }
    middle + 5
}

// Rules 13 and 14, of a word of 1s and #s. `extra` is where the first instruction too many starts.
fn scan(word: &[u8]) -> Result<usize, Refusal>
    requires { Readable word.now }
    ensures { result ≡ scan_answer word.now }
{
    let mut at: usize = 0;
    let mut count: usize = 0;
    let mut extra: usize = 0;
    while at < word.len() {
        let e = item_at(word, at);
        if e.operand == 0 {
            return refused(13, fault_place(at, e));
        }
        if e.kind == 0 {
            return refused(13, fault_place(at, e));
        }
        if count == Instruction::INSTRUCTIONS {
            extra = at;
        }
        at = e.next;
        count += 1;
    }
    if count <= Instruction::INSTRUCTIONS {
        Ok(count)
    } else {
        refused(14, extra)
    }
}

// Rules 11 to 14, one after the other, of a word that is not too long.
fn examine(word: &[u8]) -> Result<usize, Refusal>
    requires { length word.now ≤ most_symbols }
    ensures { result ≡ read_answer (read_word word.now) }
{
    if word.len() == 0 {
        return refused(11, 0);
    }
    let end = symbols_end(word);
    if end < word.len() {
        return refused(12, end);
    }
    scan(word)
}

// Rules 11 to 14. Where a word is not one of instructions alone, or of too many, the rule and the place are found.
pub fn measure(word: &[u8]) -> Result<usize, Refusal>
    ensures { result ≡ read_answer (read_word word.now) }
{
    if Instruction::SYMBOLS < word.len() {
        return refused(11, 0);
    }
    let n = count(word);
    if 0 < n && n <= Instruction::INSTRUCTIONS {
        return Ok(n);
    }
    examine(word)
}

// Puts the instructions of a word that measure passed into the two slices.
fn fill(word: &[u8], count: usize, kinds: &mut [u8], operands: &mut [u32])
    requires { Fillable word.now count kinds.old operands.old }
    ensures { Filled word.now kinds.old operands.old kinds.new operands.new }
{
    let mut at: usize = 0;
    for i in 0..count {
        let e = item_at(word, at);
        kinds[i] = e.kind;
        operands[i] = e.operand;
        at = e.next;
    }
}

// Reads a word into lent kinds and operands: rules 11 to 14, then 19. The answer is the number of its instructions.
pub fn read(word: &[u8], kinds: &mut [u8], operands: &mut [u32]) -> Result<usize, Refusal>
    ensures { Reads word.now kinds.old operands.old result kinds.new operands.new }
{
    let count = measure(word)?;
    if kinds.len() < count {
        return refused(19, 0);
    }
    if operands.len() < count {
        return refused(19, 0);
    }
    fill(word, count, kinds, operands);
    Ok(count)
}
