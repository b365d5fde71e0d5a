// Cases of document 01, evaluated by the definitions. No code.
#![tactic(auto)]
