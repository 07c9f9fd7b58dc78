// The policy image: its counts, its heads and its records as they stand in the bytes, and questions 1 and 2.
#![tactic(auto)]

pub mod counts;
pub mod kinds;
pub mod records;
pub mod sizes;
