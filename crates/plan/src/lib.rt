// The plan of a search: what is made of a policy, of a goal or two contexts over it, and of the allow records that count, in one slice of
// numbers, so that a search reads each fact in a few steps.
#![tactic(auto)]

pub mod alike;
pub mod ends;
pub mod fill;
pub mod goal;
pub mod held;
pub mod leads;
pub mod make;
pub mod meets;
pub mod named;
pub mod regions;
pub mod rules;
pub mod sets;
