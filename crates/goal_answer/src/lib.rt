// What a plan answers to a goal: the sort and the least number of steps, by two searches, and the path that is shown of it.
#![tactic(auto)]

pub mod find;
pub mod show;
