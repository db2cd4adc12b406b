// Examples of full size, computed from the definitions of crate `theory`: texts, lists, words, tables and sheets at their limits. No code.
#![tactic(auto)]
