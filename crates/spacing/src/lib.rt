// Definitions and laws on the places at whole numbers of steps from a start, for the crates above. No code.
#![tactic(auto)]
