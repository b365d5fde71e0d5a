// The coach's lines agree with the sheet, and are the same at both ends of the field: the claims and their proofs. No code.
#![tactic(auto)]
