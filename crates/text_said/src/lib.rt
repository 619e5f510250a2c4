// That a text says what is read off it, and nothing else, in specs/ and proofs/. There is nothing to run here.
#![tactic(auto)]
