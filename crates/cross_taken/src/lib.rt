// What the crossing makers give, line after line, is what classifying lines takes.
#![tactic(auto)]
