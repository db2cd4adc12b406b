// The lines of an accepted list: three numbers each.
ghost use Rattle.std.specs.Prelude.{◌≡◌, ◌+◌, ◌*◌, ◌≤◌, ◌<◌, length};
ghost use Rattle.theory.specs.Limits as Limits;
ghost use Rattle.theory.specs.Source as S;
ghost use Rattle.emit.specs.Pieces.{kind_opened};
ghost use Rattle.translation.specs.Sites.{numbers_at, Accepts, block_at, goes_on};

use command::Numbers;

// Line `at`, from 0.
pub fn line_at(list: &[u8], at: usize) -> Numbers
    requires { 3 * at + 2 < length list.now }
    ensures { result ≡ numbers_at list.now at }
{
    let first = 3 * at;
    Numbers {
        kind: list[first],
        index: list[first + 1],
        source: list[first + 2],
    }
}

// Whether a line or a pair begins at line `at`: it is neither past the last nor a closing line.
pub fn begins(list: &[u8], lines: usize, at: usize) -> bool
    requires { Accepts list.now lines }
    ensures { result ≡ goes_on (block_at list.now at) }
{
    if at < lines {
        let kind = list[3 * at];
        match kind {
            command::ENDLOOP | command::ENDWHILE => false,
            _ => true,
        }
    } else {
        false
    }
}

// The loops around the body of a pair that a line of this kind opens, inside `depth` of them.
pub fn deeper(kind: u8, depth: u8) -> u8
    requires { depth ≤ Limits.most_open }
    ensures { result ≡ S.deeper (kind_opened kind) depth }
{
    match kind {
        command::LOOP => depth + 1,
        _ => depth,
    }
}
