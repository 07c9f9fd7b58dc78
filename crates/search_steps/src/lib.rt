// The steps that flow allows from a context, in rising order: the leaves of a search. They read a plan. What is promised of the nearest
// step speaks of the plan's numbers, and laws lead from there to flow; what is promised of the pairs and of one target speaks of flow.
#![tactic(auto)]

pub mod nearest;
pub mod offers;
pub mod pairs;
pub mod sweep;
pub mod targets;
