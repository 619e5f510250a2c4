// When a parse and a print are refused, as relations, and that their definitions refuse exactly then, in specs/ and proofs/. There is nothing to run here.
#![tactic(auto)]
