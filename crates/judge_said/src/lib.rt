// The tests of a program's records, told by the text that it is made of. There is nothing to run here.
#![tactic(auto)]
