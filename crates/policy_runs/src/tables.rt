// Tables by kinds of an image that is written kind by kind: where the records of each kind end, and so the heads.
ghost use Rattle.std.specs.Prelude.{◌+◌, get_or};
ghost use Rattle.policy_runs.specs.Inner.Tables.{Summed, FewOfEach, FewUpto, HeadTable};

use crate::{KINDS, next_upto};
use policy_image::kinds::Kind;

// The last two kinds, as tables by kinds are numbered.
pub const CONSTRAINTS: usize = Kind::Constraint as usize;

pub const NODES: usize = Kind::Node as usize;

// For each kind, how many records of kinds up to it there are in all.
pub fn ends_of(first: &[usize; KINDS], second: &[usize; KINDS]) -> [usize; KINDS]
    requires { FewOfEach first.now second.now }
    ensures { Summed (λ k. get_or first.now k 0 + get_or second.now k 0) result 9 }
{
    let mut ends = [0usize; KINDS];
    for k in 1..=NODES {
        ends[k] = ends[k - 1] + (first[k] + second[k]);
    }
    ends
}

// The heads of the result: the number of the first record of each kind, or 0.
pub fn heads_of(ends: &[usize; KINDS]) -> [usize; KINDS]
    requires { FewUpto ends.now }
    ensures { HeadTable ends.now result }
{
    let mut heads = [0usize; KINDS];
    for k in 1..=NODES {
        heads[k] = next_upto(ends[k], ends[k - 1]);
    }
    heads
}
