// Registers in a lent store, inside a run: a symbol appended, and the first symbol deleted. Nothing is moved: a register's symbols lie in a
// ring, from its start on and after the last byte of its place from the first. From which byte a register has its place is looked up, in
// offsets that were added up once for the run.
ghost use Rattle.std.specs.Prelude.{◌≡◌, List, ℕ, suc, ◌<◌, length};
ghost use Rattle.theory.specs.Word.{Symbol, byte_of};
ghost use Rattle.rule10.specs.Lent.{Sized};
ghost use Rattle.rings.specs.Ring as R;
ghost use Rattle.rings.specs.Ring.{Offsets, Ring, Ringed, Appended, Deleted};

// A place in a ring of so many bytes, counted on past its end.
fn wrapped(k: usize, size: usize) -> usize
    ensures { result ≡ R.wrapped size k }
{
    if k < size { k } else { k - size }
}

// Appends the symbol of byte b to register r, counted from 0. It says whether there was room.
pub fn append(
    store: &mut [u8],
    lengths: &mut [u16],
    starts: &[usize],
    offsets: &[usize],
    capacities: &[u16],
    r: usize,
    b: u8,
) -> bool
    requires { Sized capacities.now store.old lengths.old × (r < length capacities.now)
        × Ringed capacities.now store.old lengths.old starts.now × Offsets capacities.now offsets.now }
    ensures { (f : ℕ → List Symbol) (x : Symbol) → b ≡ byte_of x
        → Ring capacities.now f store.old lengths.old starts.now
        → Appended capacities.now f r x result store.new lengths.new starts.now }
{
    let n = lengths[r];
    let size = capacities[r] as usize;
    if (n as usize) < size {
        let at = wrapped(starts[r] + n as usize, size);
        store[offsets[r] + at] = b;
        lengths[r] = n + 1;
        true
    } else {
        false
    }
}

// Deletes the first symbol of register r, counted from 0, and hands back its byte, or 0 where the register is empty.
pub fn delete_first(
    store: &mut [u8],
    lengths: &mut [u16],
    starts: &mut [usize],
    offsets: &[usize],
    capacities: &[u16],
    r: usize,
) -> u8
    requires { Sized capacities.now store.old lengths.old × (r < length capacities.now)
        × Ringed capacities.now store.old lengths.old starts.old × Offsets capacities.now offsets.now }
    ensures { (f : ℕ → List Symbol)
        → Ring capacities.now f store.old lengths.old starts.old
        → Deleted capacities.now f r (f (suc r)) result store.new lengths.new starts.new }
{
    let n = lengths[r];
    if n == 0 {
        return 0;
    }
    let start = starts[r];
    let at = offsets[r] + start;
    let b = store[at];
    store[at] = 0;
    starts[r] = wrapped(start + 1, capacities[r] as usize);
    lengths[r] = n - 1;
    b
}
