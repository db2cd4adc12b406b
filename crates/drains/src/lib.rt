// Many turns at once of a small loop of a word, a drain, on registers that hold 1s alone, each of which is then its length. What they come
// to by the definitions of crate `theory` is in proofs/AtOnce.antt.
#![tactic(auto)]

ghost use Rattle.std.specs.Prelude.{◌≡◌, ◌&&◌, ◌≤◌, ◌<◌, ◌+◌, ◌*◌, ◌/◌, ◌^◌, min, eqb, ltb, length, get_or};
ghost use Rattle.theory.specs.Basics.{all};
ghost use Rattle.theory.specs.Machines.{capacity_of};
ghost use Rattle.drains.specs.Drains.{loops_back, targets, room_in, with_room, turns_of, poured, turns, lengths_then};
ghost use Rattle.drains.specs.Pours.{Fits, Filled};

use layout::capacity_at;
use word::Instruction;

fn narrow(x: usize) -> u16
    requires { x < 65536 }
    ensures { result ≡ x }
{
    x as u16
}

// A register's index, counted from 0.
fn index(register: u32) -> usize
    requires { 1 ≤ register }
    ensures { result + 1 ≡ register }
{
    register as usize - 1
}

// A register's length or capacity, of a list of them; none for one that the list lacks.
fn of_register(list: &[u16], register: u32) -> usize
    ensures { (result ≡ capacity_of list.now register) × (result < 65536) }
{
    if register == 0 {
        return 0;
    }
    capacity_at(list, index(register))
}

// How many 1s more a register may take, of a loop that deletes from another.
fn room_in(lengths: &[u16], capacities: &[u16], from: u32, register: u32) -> usize
    ensures { result ≡ room_in lengths.now capacities.now from register }
{
    if register == from {
        return 0;
    }
    if lengths.len() < register as usize {
        return 0;
    }
    let held = of_register(lengths, register);
    let capacity = of_register(capacities, register);
    if held < capacity { capacity - held } else { 0 }
}

// How many turns, no more than so many, there is room for in the registers that they append to.
fn with_room(lengths: &[u16], capacities: &[u16], appends: &[u32], from: u32, most: usize) -> usize
    requires { (most < 65536) × (length appends.now < 2 ^ 32) }
    ensures { result ≡ with_room lengths.now capacities.now from
        (length appends.now) appends.now most }
{
    let mut m = most;
    for register in appends {
        let room = room_in(lengths, capacities, from, *register);
        if room < m * appends.len() {
            m = room / appends.len();
        }
    }
    m
}

// How many turns of n steps there are steps for, of so many.
fn with_steps(held: usize, n: usize, left: u32) -> usize
    requires { (held < 65536) × (1 ≤ n) × (n < 2 ^ 32) }
    ensures { result ≡ min held (left / n) }
{
    let may = left as usize;
    if held * n <= may { held } else { may / n }
}

// m ones more in a register for each time that an append names it.
fn pour(lengths: &mut [u16], appends: &[u32], m: usize)
    requires { Fits appends.now m lengths.old }
    ensures { Filled appends.now m lengths.old lengths.new }
{
    for register in appends {
        let r = index(*register);
        let n = usize::from(lengths[r]);
        lengths[r] = narrow(n + m);
    }
}

// How many turns can be done at once, within so many steps, of a loop of n instructions that deletes from one register and appends to
// others.
fn turns_of(
    lengths: &[u16],
    capacities: &[u16],
    appends: &[u32],
    from: u32,
    n: usize,
    left: u32,
) -> usize
    requires { (n ≡ length appends.now + 2) × (n < 2 ^ 32) }
    ensures { result ≡ turns_of lengths.now capacities.now from appends.now n left }
{
    let held = of_register(lengths, from);
    with_room(
        lengths,
        capacities,
        appends,
        from,
        with_steps(held, n, left),
    )
}

// Does them: the steps that they take.
fn turned(
    lengths: &mut [u16],
    capacities: &[u16],
    appends: &[u32],
    from: u32,
    n: usize,
    left: u32,
) -> u32
    requires { (n ≡ length appends.now + 2) × (n < 2 ^ 32) }
    ensures { (result ≡ turns_of lengths.old capacities.now from appends.now n left * n)
        × (lengths.new ≡ poured from appends.now
        (turns_of lengths.old capacities.now from appends.now n left) lengths.old) }
{
    let m = turns_of(&*lengths, capacities, appends, from, n, left);
    if m == 0 {
        return 0;
    }
    let a = index(from);
    let held = usize::from(lengths[a]);
    lengths[a] = narrow(held - m);
    pour(lengths, appends, m);
    (m * n) as u32
}

// Whether all are appends of 1.
fn all_append(kinds: &[u8]) -> bool
    ensures { result ≡ all (eqb 1) kinds.now }
{
    for kind in kinds {
        if *kind != Instruction::APPEND_ONE {
            return false;
        }
    }
    true
}

// Whether index i is cases on a register that holds something.
fn deletes(lengths: &[u16], kinds: &[u8], operands: &[u32], i: usize) -> bool
    ensures { result ≡ (eqb (get_or kinds.now i 0) 5
        && ltb 0 (capacity_of lengths.now (get_or operands.now i 0))) }
{
    if kinds.len() <= i {
        return false;
    }
    if kinds[i] != Instruction::CASES {
        return false;
    }
    if operands.len() <= i {
        return false;
    }
    0 < of_register(lengths, operands[i])
}

// Whether from index i + 2 on all are appends of 1, and index i + n goes n back.
fn loops_back(kinds: &[u8], operands: &[u32], i: usize, n: usize) -> bool
    ensures { result ≡ loops_back kinds.now operands.now i n }
{
    if n < 2 {
        return false;
    }
    if kinds.len() <= n {
        return false;
    }
    if kinds.len() - n <= i {
        return false;
    }
    let to = i + n;
    if kinds[to] != Instruction::BACKWARD {
        return false;
    }
    if operands.len() <= to {
        return false;
    }
    if operands[to] as usize != n {
        return false;
    }
    let from = i + 2;
    all_append(&kinds[from..to])
}

// The turns of the loop from index i on whose last instruction, at index i + n, goes n back: the steps that they take.
fn turned_at(
    lengths: &mut [u16],
    capacities: &[u16],
    operands: &[u32],
    i: usize,
    n: usize,
    left: u32,
) -> u32
    requires { (2 ≤ n) × (i + n < length operands.now) × (n < 2 ^ 32) }
    ensures { (result ≡ turns_of lengths.old capacities.now (get_or operands.now i 0)
        (targets operands.now i n) n left * n)
        × (lengths.new ≡ poured (get_or operands.now i 0) (targets operands.now i n)
        (turns_of lengths.old capacities.now (get_or operands.now i 0) (targets operands.now i n)
        n left) lengths.old) }
{
    let from = i + 2;
    let to = i + n;
    turned(
        lengths,
        capacities,
        &operands[from..to],
        operands[i],
        n,
        left,
    )
}

// Does at once the turns of a drain that stands from index i of a table of kinds and operands on, whose last instruction goes n back to i,
// as many as there are 1s to delete, room to append, and steps left: the steps that they take. None where no drain stands there.
pub fn drain(
    lengths: &mut [u16],
    capacities: &[u16],
    kinds: &[u8],
    operands: &[u32],
    i: usize,
    n: usize,
    left: u32,
) -> u32
    ensures { (result ≡ turns lengths.old capacities.now kinds.now operands.now i n left * n)
        × (lengths.new ≡ lengths_then lengths.old capacities.now kinds.now operands.now
        i n left) }
{
    if !deletes(&*lengths, kinds, operands, i) {
        return 0;
    }
    if !loops_back(kinds, operands, i, n) {
        return 0;
    }
    turned_at(lengths, capacities, operands, i, n, left)
}
