// The nodes of a search, each a context and a monitor's state: what a search is asked, the monitors, what arriving at a context comes to,
// the nodes that a search starts from, and those that it has visited.
#![tactic(auto)]

pub mod arrival;
pub mod monitor;
pub mod seed;
pub mod starts;
pub mod task;
pub mod visits;
