// What the promises of the outward calls fix: definitions and theorems alone.
#![tactic(auto)]
