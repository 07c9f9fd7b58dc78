// General leaves that every layer above uses: numbers in bytes, bits of a mask, ranges of numbers.
#![tactic(auto)]

pub mod bits;
pub mod bytes;
pub mod ranges;
pub mod refusals;
