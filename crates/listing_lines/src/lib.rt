// The lines of a listing's text (document 02, request 6), read as four numbers a line.
#![tactic(auto)]

ghost use Rattle.std.specs.Prelude.{◌≡◌, [], ◌∷◌, length};
ghost use Rattle.theory.specs.Text.{split_lines};
ghost use Rattle.output.specs.Puts.{Put, starting};
ghost use Rattle.listing.specs.Refused.{text_lines};
ghost use Rattle.listing_numbers.specs.Numbers.{list_of};
ghost use Rattle.listing_numbers.specs.Lines.{in_order};

use listing_numbers::{Numbers, numbers_of};
use output::onward;
use text::line_end;

// One number of a list.
fn put(list: &mut [u16], at: usize, n: u16) -> usize
    ensures { Put (n ∷ []) at list.old list.new result }
{
    if at < list.len() {
        list[at] = n;
        return at + 1;
    }
    onward(at, 1)
}

// The numbers of a line.
fn put_line(list: &mut [u16], at: usize, n: Numbers) -> usize
    ensures { Put (in_order n) at list.old list.new result }
{
    let second = put(&mut *list, at, n.kind);
    let third = put(&mut *list, second, n.register);
    let fourth = put(&mut *list, third, n.one);
    put(&mut *list, fourth, n.hash)
}

// The number of a text's lines, with the numbers of all for which a lent list has room.
pub fn read_lines(text: &[u8], list: &mut [u16]) -> usize
    ensures value { result ≡ length (split_lines text.now) }
    ensures list_after { list.new ≡ starting (list_of (text_lines text.now)) list.old }
{
    let mut at = 0;
    let mut lines = 0;
    let mut place = 0;
    while at < text.len() {
        let end = line_end(text, at);
        place = put_line(&mut *list, place, numbers_of(&text[at..end]));
        lines += 1;
        at = onward(end, 1);
    }
    lines
}
