// The plain types that every crate shares, and the answer where a rule applies. All else of this crate is in specs/ (the definitions and the claims) and proofs/ (the theorems).
#![tactic(auto)]

ghost use Rattle.std.specs.Prelude.{◌≡◌, Err};

// Why a call turned its input down: the number of the rule of document 01, and the place that the rule names. It is a number and no enum:
// the document, C and both tools call a rule by it, and names for the numbers would only say them again.
#[derive(Clone, Copy)]
pub struct Refusal {
    pub number: u32,
    pub place: usize,
}

// The answer where a rule applies: its number, and the place that it names.
pub fn refused<T>(number: u32, place: usize) -> Result<T, Refusal>
    ensures { result ≡ Err (record { number = number; place = place }) }
{
    Err(Refusal { number, place })
}

// How a run ends. Document 01's terms: strayed, a place outside the word other than the one after its last instruction; spent, no budget
// or no count left; full, the next step would put more than the capacity into a register or a variable.
#[derive(Clone, Copy)]
pub enum End {
    Halted,
    Strayed,
    Spent,
    Full,
}

// How a run ended, and the steps that it took.
#[derive(Clone, Copy)]
pub struct Ended {
    pub end: End,
    pub steps: u32,
}

// The setting of a lesson: every program is taken, or LOOP programs alone (document 02, request 1).
#[derive(Clone, Copy)]
pub enum Setting {
    Any,
    LoopOnly,
}
