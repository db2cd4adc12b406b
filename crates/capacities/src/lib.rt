// Capacities for a program whose word is run (document 02, request 5): rule 10 of them, and rule 21. The registers that a program's word
// names besides those of its variables have the capacity of the largest of these; they are the scratch register, at a copy of two variables
// and at a loop, and the counter of each loop.
#![tactic(auto)]

ghost use Rattle.std.specs.Prelude.{◌≡◌, ◌≤◌, length};
ghost use Rattle.theory.specs.Machines.{capacity_of};
ghost use Rattle.theory.specs.TurnedDown.{read_list, largest};
ghost use Rattle.list.specs.Answers.{checked};
ghost use Rattle.capacities.specs.Room.{roomy, line_passes, next_depth, list_passes, is_set, with_room, of_variables};

use command::{COPY, ENDLOOP, LOOP};
use layout::{REGISTERS, capacity_at};
use list::{Program, check_list};
use rule10::are_limited;
use theory::{Refusal, Setting, refused};

// How many variables a program may have.
const VARIABLES: usize = 32;

// The largest capacity of a variable.
fn largest(capacities: &[u16], variables: usize) -> usize
    ensures { result ≡ largest (capacity_of capacities.now) variables }
{
    let mut most: usize = 0;
    for i in 0..variables {
        most = most.max(capacity_at(capacities, i));
    }
    most
}

// A line inside `deep` loops, of a program of so many variables: what its code names above these has room for the most.
fn line_passes(
    capacities: &[u16],
    most: usize,
    variables: usize,
    deep: usize,
    kind: u8,
    index: u8,
    source: u8,
) -> bool
    requires { (variables ≤ 32) × (deep ≤ 512) }
    ensures { result ≡ line_passes (roomy most capacities.now) variables deep kind index source }
{
    match kind {
        COPY => {
            if index == source {
                return true;
            }
            most <= capacity_at(capacities, variables)
        }
        LOOP => {
            if capacity_at(capacities, variables) < most {
                return false;
            }
            most <= capacity_at(capacities, variables + 1 + deep)
        }
        _ => true,
    }
}

// The loops around the next line.
fn next_depth(deep: usize, kind: u8) -> usize
    requires { deep ≤ 512 }
    ensures { result ≡ next_depth deep kind }
{
    match kind {
        LOOP => deep + 1,
        ENDLOOP => {
            if deep == 0 {
                return 0;
            }
            deep - 1
        }
        _ => deep,
    }
}

// Every line of a list.
fn passes(list: &[u8], variables: usize, capacities: &[u16]) -> bool
    requires { (length list.now ≤ 1536) × (variables ≤ 32) }
    ensures { result ≡ list_passes (roomy (largest (capacity_of capacities.now) variables) capacities.now)
        variables 0 list.now }
{
    let most = largest(capacities, variables);
    let mut deep: usize = 0;
    for n in 0..list.len() / 3 {
        let kind = list[3 * n];
        let index = list[3 * n + 1];
        let source = list[3 * n + 2];
        if !line_passes(capacities, most, variables, deep, kind, index, source) {
            return false;
        }
        deep = next_depth(deep, kind);
    }
    true
}

// Whether the capacities are those of a set.
fn are_a_set(capacities: &[u16]) -> bool
    ensures { result ≡ is_set capacities.now }
{
    if capacities.len() != REGISTERS {
        return false;
    }
    are_limited(capacities)
}

// A program handed in as a list, for registers of these capacities: rules 3 to 8, 10, 21.
pub fn check(list: &[u8], capacities: &[u16]) -> Result<Program, Refusal>
    ensures { result ≡ checked (with_room capacities.now (read_list list.now)) }
{
    let program = check_list(Setting::Any, list)?;
    if !are_a_set(capacities) {
        return refused(10, 0);
    }
    if passes(list, program.variables, capacities) {
        Ok(program)
    } else {
        refused(21, 0)
    }
}

// The capacities of the variables, which are those of the first registers.
pub fn of_variables(capacities: &[u16]) -> [u32; VARIABLES]
    ensures { result ≡ of_variables capacities.now }
{
    let mut found = [0u32; VARIABLES];
    for (i, capacity) in found.iter_mut().enumerate() {
        *capacity = capacity_at(capacities, i) as u32;
    }
    found
}
