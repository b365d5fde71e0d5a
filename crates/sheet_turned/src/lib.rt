// What the desk sees of the half turn: the claims on the two sheets, and their proofs. No code.
#![tactic(auto)]
