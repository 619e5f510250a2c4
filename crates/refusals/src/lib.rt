// The refusals as relations, and that the calls' tests are these, in specs/ and proofs/. There is nothing to run here.
#![tactic(auto)]
