// That an image is the bytes of its program and a parsed text loads, in specs/ and proofs/. There is nothing to run here.
#![tactic(auto)]
