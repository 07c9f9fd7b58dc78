// The goal question. It asks nothing of its caller, and its promise fixes the answer and the count.
#![tactic(auto)]

pub mod goal;
