// The label tool: reads program.txt, and prints the word of its program, or the refusal.
#![tactic(auto)]

ghost use Rattle.std.specs.Prelude.{◌≡◌, ◌≤◌, length};
ghost use Rattle.output.specs.Puts.{Put};
ghost use Rattle.label_tool.specs.Label.{label};

use files::read_file;
use output::put_byte;
use printing::put_refusal;
use std::io;
use theory::Setting;
use tidy::Form;

// What is printed for a text, at the start of an output that has room for the longest word and LF.
fn put_label(text: &[u8], out: &mut [u8]) -> usize
    requires { length out.old ≡ 600001 }
    ensures put { Put (label text.now) 0 out.old out.new result }
    ensures upper_bound { result ≤ 600001 }
{
    match translation::translate_text(Setting::Any, Form::Plain, text, &mut *out) {
        Ok(size) => put_byte(&mut *out, size.symbols, b'\n'),
        Err(r) => put_refusal(&mut *out, r),
    }
}

// The buffer has one byte more than the limit of a text, so that a file over the limit is seen to be.
fn main(rt: HostRuntime) -> io::Result<()> {
    let mut text = [0u8; 16385];
    let mut out = [0u8; 600001];
    let t = read_file(&rt, b"program.txt", &mut text);
    let n = put_label(&text[..t], &mut out);
    rt.write_all(&out[..n])
}
