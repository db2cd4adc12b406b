// Rule 9: whether a state is one of a program's.
ghost use Rattle.std.specs.Prelude.{◌≡◌, ◌&&◌, suc, ◌≤◌, length};
ghost use Rattle.theory.specs.Limits.{most_lines, state_values, state_passes};
ghost use Rattle.theory.specs.Source.{depth};
ghost use Rattle.theory.specs.Machines.{is_limited};
ghost use Rattle.theory.specs.TurnedDown.{is_source};
ghost use Rattle.theory.specs.ProgramText.{commands};
ghost use Rattle.source_state.specs.Answers.{source_state};
ghost use Rattle.source.specs.Lines.{Given, Entered, all_capacities, all_values, all_passes};
ghost use Rattle.source.specs.Lines.{Deep, Bounding, Bounded, all_left};

use command::{ENDLOOP, LOOP};
use source_state::{State, is_good_passes, is_good_value};

// Rule 9, of the capacities of so many variables.
fn are_capacities(capacities: &[u32], variables: usize) -> bool
    requires { (length capacities.now ≡ state_values) × (variables ≤ state_values) }
    ensures { result ≡ all_capacities capacities.now variables }
{
    for i in 0..variables {
        let capacity = capacities[i];
        if capacity < 1 {
            return false;
        }
        if State::CAPACITY < capacity {
            return false;
        }
    }
    true
}

// Rule 9, of every value.
fn are_values(values: &[u32], capacities: &[u32], variables: usize) -> bool
    requires { (length values.now ≡ state_values) × (length capacities.now ≡ state_values) }
    ensures { result ≡ all_values capacities.now variables values.now }
{
    for (i, v) in values.iter().enumerate() {
        if !is_good_value(*v, i, capacities[i], variables) {
            return false;
        }
    }
    true
}

// Rule 9, of every entry of the passes-left, by the capacity for each.
fn are_passes(passes: &[u32], bounds: &[u32], depth: usize) -> bool
    requires { (length passes.now ≡ state_passes) × (length bounds.now ≡ state_passes) }
    ensures { result ≡ all_passes bounds.now depth passes.now }
{
    for (d, k) in passes.iter().enumerate() {
        if !is_good_passes(*k, d, bounds[d], depth) {
            return false;
        }
    }
    true
}

// The number of loops around a line, which may be the line after the last.
fn depth_at(list: &[u8], entries: &[u8], lines: usize, line: usize) -> usize
    requires { Deep list.now entries.now lines line }
    ensures { result ≡ depth (commands list.now) line }
{
    if lines < line {
        return 0;
    }
    let here = line - 1;
    let entry = usize::from(entries[here]);
    if list[3 * here] == ENDLOOP {
        entry + 1
    } else {
        entry
    }
}

// The capacity of the variable of each loop around a line, by the number of loops around that loop.
fn fill_bounds(list: &[u8], entries: &[u8], line: usize, capacities: &[u32], bounds: &mut [u32])
    requires { Bounding list.now entries.now line capacities.now bounds.old }
    ensures { Bounded list.now line capacities.now bounds.new }
{
    for n in 0..line - 1 {
        if list[3 * n] == LOOP {
            let d = usize::from(entries[n]);
            let i = usize::from(list[3 * n + 1]);
            bounds[d] = capacities[i];
        }
    }
}

// Rule 9, of the passes-left at a line: each is judged by the number of loops around the line and the capacity of its loop's variable.
fn are_left(
    list: &[u8],
    entries: &[u8],
    lines: usize,
    line: usize,
    capacities: &[u32],
    passes: &[u32],
) -> bool
    requires { Deep list.now entries.now lines line × (length capacities.now ≡ state_values) × (length passes.now ≡ state_passes) }
    ensures { result ≡ all_left (commands list.now) line capacities.now passes.now }
{
    let depth = depth_at(list, entries, lines, line);
    let mut bounds = [0u32; State::PASSES];
    fill_bounds(list, entries, line, capacities, &mut bounds);
    are_passes(passes, &bounds, depth)
}

// Rule 9, of the capacities and of the line, which may be the line after the last.
fn are_limited(capacities: &[u32], variables: usize, line: usize, lines: usize) -> bool
    requires { (length capacities.now ≡ state_values) × (variables ≤ state_values) × (lines ≤ most_lines) }
    ensures { result ≡ (all_capacities capacities.now variables && is_limited (suc lines) line) }
{
    if !are_capacities(capacities, variables) {
        return false;
    }
    if line < 1 {
        return false;
    }
    line <= lines + 1
}

// Rule 9.
pub fn is_source(list: &[u8], entries: &[u8], lines: usize, variables: usize, state: State) -> bool
    requires { Given list.now lines variables × Entered list.now entries.now × (lines ≤ length entries.now) }
    ensures { result ≡ is_source (commands list.now) (source_state state) }
{
    let capacities = state.capacities;
    let line = state.line as usize;
    if !are_limited(&capacities, variables, line, lines) {
        return false;
    }
    let values = state.values;
    if !are_values(&values, &capacities, variables) {
        return false;
    }
    let passes = state.passes;
    are_left(list, entries, lines, line, &capacities, &passes)
}
