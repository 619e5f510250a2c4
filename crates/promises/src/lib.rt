// The promises: theorems over the calls' contracts, in specs/ and proofs/. There is nothing to run here.
#![tactic(auto)]
