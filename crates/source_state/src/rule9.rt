// Rule 9, of one number of a state.
ghost use Rattle.std.specs.Prelude.{◌≡◌};
ghost use Rattle.source_state.specs.Numbers.{is_value_within, is_passes_within};

// Rule 9, of one value: within its variable's capacity, and 0 where the program names no such variable.
pub fn is_good_value(v: u32, i: usize, capacity: u32, variables: usize) -> bool
    ensures { result ≡ is_value_within capacity variables i v }
{
    if i < variables { v <= capacity } else { v == 0 }
}

// Rule 9, of one entry of the passes-left: 1 to capacity for a loop around the line, 0 for any other.
pub fn is_good_passes(k: u32, d: usize, capacity: u32, depth: usize) -> bool
    ensures { result ≡ is_passes_within capacity depth d k }
{
    if depth <= d {
        return k == 0;
    }
    if k < 1 {
        return false;
    }
    k <= capacity
}
