// Document 02, request 6: scan-and-delete listings, what is refused of them, their word, and that both do the same. No code.
#![tactic(auto)]
