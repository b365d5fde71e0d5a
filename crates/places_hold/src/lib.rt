// The numbers of the place of an accepted situation are finite, and a placed player's number is one: the claims and their proofs. No code.
#![tactic(auto)]
