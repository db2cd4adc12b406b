// Numbers in base 10, put into an output from a place on.
#![tactic(auto)]

ghost use Rattle.std.specs.Prelude.{[], ◌∷◌, ◌+◌, ◌%◌};
ghost use Rattle.theory.specs.Text.{decimal};
ghost use Rattle.output.specs.Puts.{Put};

use output::put_byte;

// The last digit of a number.
fn put_digit(out: &mut [u8], at: usize, n: usize) -> usize
    ensures { Put ((48 + n % 10) ∷ []) at out.old out.new result }
{
    put_byte(out, at, 48 + (n % 10) as u8)
}

// A number in base 10.
pub fn put_number(out: &mut [u8], at: usize, n: usize) -> usize
    ensures { Put (decimal n) at out.old out.new result }
{
    if n < 10 {
        put_digit(out, at, n)
    } else if n < 100 {
        let second = put_digit(&mut *out, at, n / 10);
        put_digit(&mut *out, second, n)
    } else {
        let last = put_number(&mut *out, at, n / 10);
        put_digit(&mut *out, last, n)
    }
}
