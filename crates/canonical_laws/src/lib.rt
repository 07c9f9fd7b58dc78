// What the canonical policy says, and its written image: definitions and theorems alone.
#![tactic(auto)]
