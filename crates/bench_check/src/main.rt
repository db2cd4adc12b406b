// The bench examples of document 01 that are not marked P, read by the library: each text's answer, `passes` or the number and the place.
#![tactic(auto)]

use std::io;
use theory::Setting;

fn answer(rt: &impl Print, text: &[u8]) -> io::Result<()> {
    let mut list = [0u8; 1536];
    match program::read(Setting::Any, text, &mut list) {
        Ok(_) => println!(rt; "passes"),
        Err(r) => {
            let number = r.number;
            let place = r.place;
            println!(rt; "{number} {place}")
        }
    }
}

// The answer to the first so many bytes of a text.
fn answer_first(rt: &impl Print, text: &[u8], end: usize) -> io::Result<()> {
    if end <= text.len() {
        answer(rt, &text[..end])?;
    }
    Ok(())
}

// The line `X0 <- 0`, 513 times.
fn many_lines() -> [u8; 4104] {
    let line = b"X0 <- 0\n";
    let mut text = [0u8; 4104];
    for (i, byte) in text.iter_mut().enumerate() {
        *byte = line[i % 8];
    }
    text
}

fn main(rt: HostRuntime) -> io::Result<()> {
    answer(&rt, b"X31 <- 0\n")?;
    answer(&rt, b"X32 <- 0\n")?;
    answer(&rt, b"X07 <- 0\n")?;
    answer(&rt, b"X3 <- X4 + 1\n")?;
    let text = many_lines();
    answer_first(&rt, &text, 512 * 8)?;
    answer_first(&rt, &text, 513 * 8)
}
