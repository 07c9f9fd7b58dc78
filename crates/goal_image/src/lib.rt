// The goal image: its records as they stand in the bytes, questions 7 to 10, and the sets of an accepted goal.
#![tactic(auto)]

pub mod chain;
pub mod check;
pub mod fields;
pub mod links;
pub mod records;
pub mod sets;
