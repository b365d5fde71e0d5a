// What is claimed of sheets that are read, and its proofs. No code.
#![tactic(auto)]
