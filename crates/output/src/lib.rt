// Bytes put into an output from a place on, and the place after them. A byte that has no place in the output is not written, but counted.
#![tactic(auto)]

ghost use Rattle.std.specs.Prelude.{◌≡◌, [], ◌∷◌, ◌+◌, ◌-◌, ◌≤◌, length, take};
ghost use Rattle.std.proofs.lemmas.List.Edits.{sets};
ghost use Rattle.output.specs.Puts.{place, Put};

// The place so many bytes on.
pub fn onward(at: usize, n: usize) -> usize
    ensures { result ≡ place (at + n) }
{
    at.saturating_add(n)
}

// The first n bytes of a word, each of which has a place. By a loop, since `copy_from_slice` takes a fifth longer at words of a few bytes.
fn copy(out: &mut [u8], at: usize, word: &[u8], n: usize)
    requires { (n ≤ length word.now) × (n ≤ length out.old - at) }
    ensures { out.new ≡ sets out.old at (take n word.now) }
{
    for i in 0..n {
        out[at + i] = word[i];
    }
}

// Some bytes. Those that all have a place are copied by a call of their own, so that a number of them that is known needs no loop.
pub fn put_bytes(out: &mut [u8], at: usize, word: &[u8]) -> usize
    ensures { Put word.now at out.old out.new result }
{
    let room = out.len().saturating_sub(at);
    if word.len() <= room {
        copy(&mut *out, at, word, word.len());
        return at + word.len();
    }
    copy(&mut *out, at, word, room);
    onward(at, word.len())
}

// One byte.
pub fn put_byte(out: &mut [u8], at: usize, byte: u8) -> usize
    ensures { Put (byte ∷ []) at out.old out.new result }
{
    if at < out.len() {
        out[at] = byte;
        return at + 1;
    }
    onward(at, 1)
}
