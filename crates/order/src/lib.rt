// Registers put in order at the end of a run, inside which each one's symbols lie in a ring: they begin at the first byte of its place
// again.
#![tactic(auto)]

ghost use Rattle.std.specs.Prelude.{◌≡◌};
ghost use Rattle.order.specs.Order.{turned, in_order};

use layout::{CAPACITY, wide};
use output::put_bytes;

// A ring, from its start on. One of more bytes than any machine's place stays as it is.
fn turn(ring: &mut [u8], start: usize)
    ensures { ring.new ≡ turned start ring.old }
{
    let size = ring.len();
    if CAPACITY < size {
        return;
    }
    if start == 0 {
        return;
    }
    if size <= start {
        return;
    }
    let mut old = [0u8; CAPACITY];
    put_bytes(&mut old, 0, ring);
    let next = put_bytes(&mut *ring, 0, &old[start..size]);
    put_bytes(ring, next, &old[0..start]);
}

// The places of a store, as many as there are both capacities and starts, each from its start on.
pub fn put_in_order(store: &mut [u8], starts: &[usize], capacities: &[u16])
    ensures { store.new ≡ in_order capacities.now starts.now store.old }
{
    let mut from: usize = 0;
    for (capacity, start) in capacities.iter().zip(starts) {
        let to = from + wide(*capacity).min(store.len() - from);
        turn(&mut store[from..to], *start);
        from = to;
    }
}
