// The weir policy, case by case: definitions and theorems alone.
#![tactic(auto)]
