// The records of mode lines, clauses and the goal of a text, and the image that they make, as what is laid of them. There is nothing to run here.
#![tactic(auto)]
