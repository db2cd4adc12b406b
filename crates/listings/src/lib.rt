// Scan-and-delete listings translated (document 02, request 6): a text is read into four numbers a line and checked line by line; then the
// table of its word is made, and written into the caller's output.
#![tactic(auto)]

ghost use Rattle.std.specs.Prelude.{◌≡◌, ◌*◌, ◌≤◌, length, take};
ghost use Rattle.theory.specs.TurnedDown.{after, mapped, lent_after};
ghost use Rattle.word.specs.Answers.{zipped};
ghost use Rattle.listing.specs.Listing.{word_text};
ghost use Rattle.listing.specs.Refused.{most_lines, translate_listing};
ghost use Rattle.listings.specs.Answers.{translated, Answers, written, Sized};
ghost use Rattle.listing_check.specs.Lined.{read};

use instruction::Size;
use listing_check::LINES;
use listing_lines::read_lines;
use listing_table::{INSTRUCTIONS, fill};
use table::write;
use text::{BYTES, is_ended};
use theory::{Refusal, refused};

// The numbers of the most lines, four a line.
const NUMBERS: usize = 4 * LINES;

// The first so many entries of a table, written as a word.
fn write_table(
    kinds: &[u8],
    operands: &[u32],
    count: usize,
    word: &mut [u8],
) -> Result<Size, Refusal>
    requires { (count ≤ length kinds.now) × (count ≤ length operands.now) }
    ensures { Sized count (zipped (take count kinds.now) (take count operands.now)) word.old result
        word.new }
{
    let symbols = write(&kinds[..count], &operands[..count], word)?;
    Ok(Size {
        symbols,
        instructions: count,
    })
}

// Lines as numbers: rules 3, 4 and 22, then 19.
fn translate_list(list: &[u16], word: &mut [u8]) -> Result<Size, Refusal>
    ensures { Answers (after (read list.now) (written word.old)) word.old result word.new }
{
    let mut kinds = [0u8; INSTRUCTIONS];
    let mut operands = [0u32; INSTRUCTIONS];
    let count = fill(list, &mut kinds, &mut operands)?;
    write_table(&kinds, &operands, count, word)
}

// The first so many lines of a list.
fn translate_first(list: &[u16], lines: usize, word: &mut [u8]) -> Result<Size, Refusal>
    requires { (4 * lines ≤ length list.now) × (lines ≤ most_lines) }
    ensures { Answers (after (read (take (4 * lines) list.now)) (written word.old)) word.old result
        word.new }
{
    let end = 4 * lines;
    translate_list(&list[..end], word)
}

// A text, translated: rules 1 to 4 and 22, then 19.
pub fn translate(text: &[u8], word: &mut [u8]) -> Result<Size, Refusal>
    ensures value { result ≡ translated (translate_listing word.old text.now) }
    ensures word_after { word.new
        ≡ lent_after word.old (mapped word_text (translate_listing word.old text.now)) }
{
    if BYTES < text.len() {
        return refused(1, 0);
    }
    let mut list = [0u16; NUMBERS];
    let lines = read_lines(text, &mut list);
    if !is_ended(text) {
        return refused(2, lines);
    }
    if LINES < lines {
        return refused(3, LINES + 1);
    }
    translate_first(&list, lines, word)
}
