// Definitions and their laws: crossings, their judgement, the walls, and what makes a wall list right. See specs/.
#![tactic(auto)]
