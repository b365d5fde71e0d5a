// The theorem of the half turn for every situation that words are. No code.
#![tactic(auto)]
