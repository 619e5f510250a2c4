// That what was parsed can be printed and is parsed again, in specs/ and proofs/. There is nothing to run here.
#![tactic(auto)]
