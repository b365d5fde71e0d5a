// Definitions and laws on lists, for the loops of the crates above. No code.
#![tactic(auto)]
