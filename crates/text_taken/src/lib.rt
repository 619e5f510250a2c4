// What is known of a text that passes 4, 5 and 6. There is nothing to run here.
#![tactic(auto)]
