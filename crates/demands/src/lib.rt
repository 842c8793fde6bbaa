// The demands over all jobs, and the cases that document 01 marks P. See proofs/.
#![tactic(auto)]
