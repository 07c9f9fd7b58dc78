// What a search keeps of a path: the stages that are still possible, and what order asks of the contexts so far.
#![tactic(auto)]

pub mod stages;
pub mod tracker;
