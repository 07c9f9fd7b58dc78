// What the joined policy states: definitions and theorems alone.
#![tactic(auto)]
