// The loader's tests of an image that is made of a program, told by the program. There is nothing to run here.
#![tactic(auto)]
