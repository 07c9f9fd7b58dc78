// The constraints on an event between a context and the contexts of a type, of which there is one for each pair of a role and a user: as
// words of 64 pairs, and remembered.
#![tactic(auto)]

pub mod asked;
pub mod marks;
pub mod rows;
