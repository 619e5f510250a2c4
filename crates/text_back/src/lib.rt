// That the text of an image is parsed to that image again, in specs/ and proofs/. There is nothing to run here.
#![tactic(auto)]
