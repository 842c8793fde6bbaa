// The lines of a drawing cut into parts: what is drawn of the parts, part after part, is what is drawn of the whole. See specs/.
#![tactic(auto)]
