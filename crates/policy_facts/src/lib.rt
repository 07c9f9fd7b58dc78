// Definitions and laws alone: the facts of a policy, and the canonical policy that states them.
#![tactic(auto)]
