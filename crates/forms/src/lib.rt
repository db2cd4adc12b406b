// What a form of a word adds after the plain one (document 02, request 2): nothing, or the clears of registers 2 to K.
#![tactic(auto)]

ghost use Rattle.std.specs.Prelude.{◌≡◌};
ghost use Rattle.tidy.specs.Forms.{clears};
ghost use Rattle.emit.specs.Pieces.{Written};
ghost use Rattle.lengths.specs.Lengths.{length_of};
ghost use Rattle.forms.specs.Added.{added};

use lengths::Length;
use tidy::Form;

// The size of all clears of a program of so many variables: that of register r has 3 instructions and r + 16 symbols.
fn clears_size(variables: u8) -> Length
    ensures { result ≡ length_of (clears variables) }
{
    let mut instructions: u16 = 0;
    let mut symbols: usize = 0;
    for register in 2..=variables {
        instructions += 3;
        symbols += usize::from(register) + 16;
    }
    Length {
        instructions,
        symbols,
    }
}

// All of them, written at a place.
fn put_clears(out: &mut [u8], place: usize, variables: u8) -> usize
    ensures { Written (clears variables) place out.old out.new result }
{
    let mut here = place;
    for register in 2..=variables {
        here = emit::clearing(&mut *out, here, usize::from(register));
    }
    here
}

// The size of what a form adds to the word of a program of so many variables.
pub fn added_size(form: Form, variables: u8) -> Length
    ensures { result ≡ length_of (added form variables) }
{
    match form {
        Form::Plain => clears_size(0),
        Form::Tidy => clears_size(variables),
    }
}

// What it adds, written at a place: it returns the place after it.
pub fn put_added(form: Form, out: &mut [u8], place: usize, variables: u8) -> usize
    ensures { Written (added form variables) place out.old out.new result }
{
    match form {
        Form::Plain => put_clears(out, place, 0),
        Form::Tidy => put_clears(out, place, variables),
    }
}
