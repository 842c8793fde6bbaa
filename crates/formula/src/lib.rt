// Definitions and their laws: the operations, the formula, what it means. See specs/.
#![tactic(auto)]
