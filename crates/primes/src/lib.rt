// Document 02, request 3: names in digits and in primes, and that a text and a names line mean the same in either. No code.
#![tactic(auto)]
