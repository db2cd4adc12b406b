// Numbers for the C host (specs/Packed). A setting and a form are told by one each, and an answer is one: what came of a call, with its
// counts, or with a refusal's number and place.
#![tactic(auto)]

ghost use Rattle.std.specs.Prelude.{◌≡◌};
ghost use Rattle.packing.specs.Packed.{setting_of, form_of, pack, counted};

use theory::{Refusal, Setting};
use tidy::Form;

// The setting that a number tells. One that is not known is on the strict side.
pub fn setting(number: u32) -> Setting
    ensures { result ≡ setting_of number }
{
    if number == 0 {
        Setting::Any
    } else {
        Setting::LoopOnly
    }
}

// The form that a number tells. One that is not known is the plain one.
pub fn form(number: u32) -> Form
    ensures { result ≡ form_of number }
{
    if number == 1 { Form::Tidy } else { Form::Plain }
}

// What came of the call in bits 56 to 63, one count in bits 32 to 47 and another in bits 0 to 31.
pub fn pack(what: u8, high: usize, low: usize) -> u64
    ensures { result ≡ pack what high low }
{
    let top = what as u64 * 0x100_0000_0000_0000;
    let middle = high as u64 % 0x1_0000 * 0x1_0000_0000;
    top + middle + low as u64 % 0x1_0000_0000
}

// An answer of one count: instructions read, symbols or bytes written.
pub fn counted(answer: Result<usize, Refusal>) -> u64
    ensures { result ≡ counted answer }
{
    match answer {
        Ok(count) => pack(0, 0, count),
        Err(r) => refused(r),
    }
}

// A refusal.
pub fn refused(r: Refusal) -> u64
    ensures { result ≡ pack 255 r.number r.place }
{
    pack(255, r.number as usize, r.place)
}
