// The starred facts of the specification: definitions and a theorem, and no code.
#![tactic(auto)]
