// The records of a policy as lists, and a policy made of a list. The crate has definitions and laws, and no functions.
#![tactic(auto)]
