// That nothing is cut where an answer is packed into one number, and that every answer of an entry fits its bits. No code.
#![tactic(auto)]
