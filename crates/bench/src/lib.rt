// The bench examples of document 01 that are marked P, computed from the definitions of crate `theory`. No code.
#![tactic(auto)]
