// Document 02, request 1: what a LOOP-only lesson accepts, and that every such program halts, as its word does. No code.
#![tactic(auto)]
