// The three demands of the mission: definitions and a theorem for each, and no code.
#![tactic(auto)]
