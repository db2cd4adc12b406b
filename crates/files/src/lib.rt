// A file read whole into a buffer, for the programs that read program.txt and sheet.txt.
#![tactic(auto)]

ghost use Rattle.std.specs.Counts.{IsPrefixLen};

use std::fs::File;
use std::io::Read;
use std::rt::Files;

// Reads a file as far as the buffer goes. One that cannot be read counts as empty; a path is text in UTF-8.
pub fn read_file(rt: &impl Files, path: &[u8], buffer: &mut [u8]) -> usize
    ensures { IsPrefixLen result buffer.new }
{
    match str::from_utf8(path) {
        Ok(name) => read_named(rt, name, buffer),
        Err(_) => 0,
    }
}

// The same of a path as text.
fn read_named(rt: &impl Files, path: &str, buffer: &mut [u8]) -> usize
    ensures { IsPrefixLen result buffer.new }
{
    let Ok(mut file) = File::open(rt, path) else {
        return 0;
    };
    read_full(&mut file, buffer)
}

// Reads until the buffer is full, the input ends or a read fails, and says how many bytes it put at the start.
fn read_full(input: &mut impl Read, buffer: &mut [u8]) -> usize
    ensures { IsPrefixLen result buffer.new }
{
    let mut done = 0;
    while done < buffer.len() {
        match input.read(&mut buffer[done..]) {
            Ok(0) => break,
            Ok(n) => done += n,
            Err(_) => break,
        }
    }
    done
}
