// The path to the end that a search found, and why a question that shows it is not answered.
#![tactic(auto)]

pub mod path;
pub mod step;
pub mod unanswered;
