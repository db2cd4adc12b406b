// The forms of a program's word (document 02, request 2). All else of this crate is in specs/ and proofs/.
#![tactic(auto)]

// The plain word is document 01's; the tidy one clears registers 2 to K after it.
#[derive(Clone, Copy)]
pub enum Form {
    Plain,
    Tidy,
}
