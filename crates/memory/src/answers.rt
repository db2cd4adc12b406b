// The types that this crate's entries take and hand back, with the limit and the fresh position.
ghost use Rattle.std.specs.Prelude.{◌≡◌, pos};

use theory::{Ended, Refusal};

// Where a machine stands: a place, any signed number, and the steps taken so far.
#[derive(Clone, Copy)]
pub struct Position {
    pub place: i32,
    pub steps: u32,
}

impl Position {
    pub const STEPS: u32 = 4294967295;

    // Place 1, no steps.
    pub fn fresh() -> Self
        ensures { result ≡ record { place = pos 1; steps = 0 } }
    {
        Position { place: 1, steps: 0 }
    }
}

// What a run hands back: where the machine stands then, and how it ended, or why it was turned down.
#[derive(Clone, Copy)]
pub struct Run {
    pub position: Position,
    pub ended: Result<Ended, Refusal>,
}
