// For a run that may come back to where it was: lengths laid aside, whether they are the same again, and whole rounds of what lies between.
#![tactic(auto)]

ghost use Rattle.std.specs.Prelude.{◌≡◌, ◌*◌, ◌/◌, get_or};
ghost use Rattle.theory.specs.Basics.{cells};
ghost use Rattle.theory.specs.Text.{same};

use layout::REGISTERS;

// The first numbers of a list, as many as a machine may have registers. One that the list lacks is 0.
pub fn laid_aside(lengths: &[u16]) -> [u16; REGISTERS]
    ensures { result ≡ cells 64 (λ i. get_or lengths.now i 0) }
{
    let mut copy = [0u16; REGISTERS];
    let count = lengths.len().min(REGISTERS);
    copy[..count].copy_from_slice(&lengths[..count]);
    copy
}

// Whether two lists are the same.
pub fn are_same(a: &[u16], b: &[u16]) -> bool
    ensures { result ≡ same a.now b.now }
{
    a == b
}

// The steps of as many whole rounds as there are steps left for; none where a round has none.
pub fn whole_rounds(round: u32, left: u32) -> u32
    ensures { result ≡ left / round * round }
{
    if round == 0 {
        return 0;
    }
    left / round * round
}
