// Two runs, each of one byte some number of times, written at the start of the part of an output that is lent.
#![tactic(auto)]

ghost use Rattle.std.specs.Prelude.{◌≡◌, ◌++◌, length, replicate};
ghost use Rattle.output.specs.Puts.{starting};

// One byte at each place of a part. A for: the library's `fill` writes the last place apart, which took half as long again (measured).
fn fill(part: &mut [u8], byte: u8)
    ensures { part.new ≡ replicate (length part.old) byte }
{
    for place in part.iter_mut() {
        *place = byte;
    }
}

// Two runs, one after the other, at the start of a part: as much of them as it has a place for.
fn cut_runs(part: &mut [u8], count: usize, byte: u8, more: usize, other: u8)
    ensures { part.new ≡ starting (replicate count byte ++ replicate more other) part.old }
{
    let room = part.len();
    let first = count.min(room);
    let second = more.min(room - first);
    fill(&mut part[..first], byte);
    fill(&mut part[first..first + second], other);
}

// Two runs, one after the other, at the start of the part that is lent. Where all of both has a place they are filled as they are, so that
// a length that is known needs no loop.
pub fn write_runs(part: &mut [u8], count: usize, byte: u8, more: usize, other: u8)
    ensures { part.new ≡ starting (replicate count byte ++ replicate more other) part.old }
{
    let room = part.len();
    if count <= room {
        if more <= room - count {
            fill(&mut part[..count], byte);
            fill(&mut part[count..count + more], other);
            return;
        }
    }
    cut_runs(part, count, byte, more, other);
}
