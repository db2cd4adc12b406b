// Answers on runs as numbers for the C host: a run's end and a value, packed with its count, or its refusal (specs/Answered).
#![tactic(auto)]

ghost use Rattle.std.specs.Prelude.{◌≡◌};
ghost use Rattle.packing.specs.Packed.{pack, end_number};
ghost use Rattle.machine_packing.specs.Answered.{run_ended, value_read};

use packing::{pack, refused};
use theory::{End, Ended, Refusal};

// The number of an end.
fn number(end: End) -> u8
    ensures { result ≡ end_number end }
{
    match end {
        End::Halted => 1,
        End::Strayed => 2,
        End::Spent => 3,
        End::Full => 4,
    }
}

// A run that ended so, after so many steps.
fn ended(end: End, steps: u32) -> u64
    ensures { result ≡ pack (end_number end) 0 steps }
{
    pack(number(end), 0, steps as usize)
}

// A run of a source or of a word, by its end and its steps.
pub fn run_ended(run: Result<Ended, Refusal>) -> u64
    ensures { result ≡ run_ended run }
{
    match run {
        Ok(run) => ended(run.end, run.steps),
        Err(r) => refused(r),
    }
}

// A value, by its symbols, or untidy.
pub fn value_read(value: Result<Option<usize>, Refusal>) -> u64
    ensures { result ≡ value_read value }
{
    match value {
        Ok(Some(length)) => pack(0, 0, length),
        Ok(None) => pack(5, 0, 0),
        Err(r) => refused(r),
    }
}
