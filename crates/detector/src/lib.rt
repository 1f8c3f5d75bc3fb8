// The detector on trees: definitions and theorems, no code.
#![tactic(auto)]
