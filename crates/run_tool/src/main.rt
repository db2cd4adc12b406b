// The run tool (document 01, "Run sheet and run tool"): reads program.txt and sheet.txt, and prints their report.
#![tactic(auto)]

use files::read_file;
use std::io;

// Each buffer has one byte more than its limit, so that a file over the limit is seen to be.
fn main(rt: HostRuntime) -> io::Result<()> {
    let mut text = [0u8; 16385];
    let mut sheet = [0u8; 4097];
    let mut out = [0u8; report::MOST];
    let t = read_file(&rt, b"program.txt", &mut text);
    let s = read_file(&rt, b"sheet.txt", &mut sheet);
    match report::report(&text[..t], &sheet[..s], &mut out) {
        Ok(n) => rt.write_all(&out[..n]),
        Err(_) => Ok(()),
    }
}
