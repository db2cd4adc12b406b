// The columns of a run sheet: the variables that they are named after, values that go to these, and values against their capacities.
#![tactic(auto)]

ghost use Rattle.std.specs.Prelude.{◌≡◌, take};
ghost use Rattle.theory.specs.Runs.{register};
ghost use Rattle.theory.specs.Machines.{capacity_of};
ghost use Rattle.theory.specs.TurnedDown.{within_columns};
ghost use Rattle.columns.specs.Columns.{columns_as, starts};

// The most columns that a sheet has: one for each variable.
pub const COLUMNS: usize = 32;

// The columns that the first `count` numbers name: they fit where each is one of the 32 variables and none comes twice. Seen from the last.
pub fn named_columns(numbers: [u32; COLUMNS], count: usize) -> Option<[u8; COLUMNS]>
    ensures { result ≡ columns_as count numbers }
{
    if COLUMNS < count {
        return None;
    }
    let mut variables = [0u8; COLUMNS];
    let mut seen = [false; COLUMNS];
    for k in (0..count).rev() {
        let n = numbers[k];
        if COLUMNS as u32 <= n {
            return None;
        }
        let i = n as usize;
        if seen[i] {
            return None;
        }
        seen[i] = true;
        variables[k] = n as u8;
    }
    Some(variables)
}

// Each value to the variable of its column, from the last: where a name comes twice, the first decides.
pub fn spread(variables: [u8; COLUMNS], count: usize, numbers: [u32; COLUMNS]) -> [u32; COLUMNS]
    ensures { result ≡ starts (take count variables) (take count numbers) }
{
    let mut values = [0u32; COLUMNS];
    for k in (0..count.min(COLUMNS)).rev() {
        let i = usize::from(variables[k]);
        if i < COLUMNS {
            values[i] = numbers[k];
        }
    }
    values
}

// The capacity of a variable; 0 for one that is none of the 32.
fn capacity_of(capacities: [u32; COLUMNS], i: usize) -> u32
    ensures { result ≡ capacity_of capacities (register i) }
{
    if i < COLUMNS { capacities[i] } else { 0 }
}

// Rule 18, of the first `count` values, seen from the last: each is at most the capacity of the variable of its column.
pub fn all_within(
    capacities: [u32; COLUMNS],
    variables: [u8; COLUMNS],
    count: usize,
    numbers: [u32; COLUMNS],
) -> bool
    ensures { result ≡ within_columns capacities (take count variables) (take count numbers) }
{
    for k in (0..count.min(COLUMNS)).rev() {
        let variable = usize::from(variables[k]);
        if capacity_of(capacities, variable) < numbers[k] {
            return false;
        }
    }
    true
}
