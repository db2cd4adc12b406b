// How the definitions of crate `theory` read document 01: the other bench examples, and one for each place that is easily misread. No code.
#![tactic(auto)]
