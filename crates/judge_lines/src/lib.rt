// The tests of all records of a text, one after the other, with the place that each would have in the image. There is nothing to run here.
#![tactic(auto)]
