// Document 02, request 7: a reading of words that undoes them, and that no two programs share a label. No code.
#![tactic(auto)]
