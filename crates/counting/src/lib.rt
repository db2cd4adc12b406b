// Most words are made of instructions alone, which is seen by loops over the whole word that have no early end, so that many bytes are
// tested at once: how many instructions a word has where rules 12 and 13 let it pass.
#![tactic(auto)]

ghost use Rattle.std.specs.Prelude.{◌≡◌, true, ◌≤◌, length};
ghost use Rattle.theory.specs.Basics.{all};
ghost use Rattle.theory.specs.Word.{is_symbol};
ghost use Rattle.counting.specs.Counts.{instruction_count, is_sixless, rises as rises-in};

// Whether of six bytes that stand together one is a 1, everywhere in a word of 1s and #s.
fn few_hashes(word: &[u8]) -> bool
    requires { all is_symbol word.now ≡ true }
    ensures { result ≡ is_sixless word.now }
{
    if word.len() < 6 {
        return true;
    }
    let end = word.len() - 5;
    let mut ok = true;
    for i in 0..end {
        let first = word[i].max(word[i + 1]);
        let second = word[i + 2].max(word[i + 3]);
        let third = word[i + 4].max(word[i + 5]);
        if first.max(second).max(third) < b'1' {
            ok = false;
        }
    }
    ok
}

// How many bytes of a part are larger than the one before them.
fn rises_of(part: &[u8]) -> u8
    requires { (1 ≤ length part.now) × (length part.now ≤ 256) }
    ensures { result ≡ rises-in part.now }
{
    let last = part.len() - 1;
    let mut n: u8 = 0;
    for i in 0..last {
        if part[i] < part[i + 1] {
            n += 1;
        }
    }
    n
}

// How many 1s stand behind a #, counted part by part, since a count of few bits is the fastest.
fn rises(word: &[u8]) -> usize
    requires { 1 ≤ length word.now }
    ensures { result ≡ rises-in word.now }
{
    let last = word.len() - 1;
    let mut n: usize = 0;
    let mut i: usize = 0;
    while i < last {
        let end = i + (last - i).min(128);
        n += usize::from(rises_of(&word[i..end + 1]));
        i = end;
    }
    n
}

// The number of instructions of a word that rules 12 and 13 let pass, and else 0. Of such words one that starts with a 1, ends in a # and
// has no six # together has an instruction more than it has 1s behind a #.
pub fn count(word: &[u8]) -> usize
    ensures { result ≡ instruction_count word.now }
{
    let size = word.len();
    if size == 0 {
        return 0;
    }
    if word[0] != b'1' {
        return 0;
    }
    if word[size - 1] != b'#' {
        return 0;
    }
    if !text::are_symbols(word) {
        return 0;
    }
    if !few_hashes(word) {
        return 0;
    }
    rises(word) + 1
}
