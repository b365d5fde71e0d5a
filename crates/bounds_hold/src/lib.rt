// For an accepted situation the bounds of the candidates and of the clamps are in order, so that no escape is taken: the claims and their proofs. No code.
#![tactic(auto)]
