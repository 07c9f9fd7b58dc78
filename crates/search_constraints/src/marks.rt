// Which types, roles and users the expression nodes of a policy tell from others: no constraint tells two apart that have no mark.
ghost use Rattle.std.specs.Prelude.{◌≡◌, ◌+◌, ◌≤◌, ◌<◌};
ghost use Rattle.policy_image.specs.Policy.{policy_of};
ghost use Rattle.policy_check.specs.Inner.Sound.{Sound};
ghost use Rattle.search_constraints.specs.Inner.Pairs.{mark_entries, mark_of, told_of, Marked};

use policy_image::kinds::{
    Kind, ROLE_1, ROLE_2, SAME_ROLE, SAME_TYPE, SAME_USER, TYPE_1, TYPE_2, USER_1, USER_2,
};
use policy_links::records::records_of;

// By type, role and user. The first entry of each sort, which is no number of one, is for all: where two are compared with each other.
pub const TYPE_MARKS: usize = 0;

pub const ROLE_MARKS: usize = 256;

pub const USER_MARKS: usize = 512;

// And one for nodes that compare nothing.
const NO_MARK: usize = 768;

pub const MARKS: usize = NO_MARK + 1;

// The entry that a node with the operator and the number b marks.
fn mark_of(op: u32, b: u32) -> usize
    requires { b < 256 }
    ensures { result ≡ mark_of op b }
{
    let n = b as usize;
    match op {
        SAME_TYPE => TYPE_MARKS,
        SAME_ROLE => ROLE_MARKS,
        SAME_USER => USER_MARKS,
        TYPE_1 => TYPE_MARKS + n,
        TYPE_2 => TYPE_MARKS + n,
        ROLE_1 => ROLE_MARKS + n,
        ROLE_2 => ROLE_MARKS + n,
        USER_1 => USER_MARKS + n,
        USER_2 => USER_MARKS + n,
        _ => NO_MARK,
    }
}

// The marks of all nodes.
pub fn marks_of(policy: &[u8]) -> [u8; MARKS]
    requires { Sound policy.now }
    ensures { Marked (policy_of policy.now) result }
{
    let mut marks = [0u8; MARKS];
    for r in records_of(policy, Kind::Node) {
        marks[mark_of(r.a, r.b)] = 1;
    }
    marks
}

// One more than the number v of a sort, where it has a mark, or all have; else 0.
pub fn told(marks: &[u8; MARKS], sort: usize, v: u32) -> u32
    requires { (sort + v < mark_entries) × (v < 256) }
    ensures { result ≡ told_of marks.now sort v }
{
    if marks[sort] != 0 {
        return v + 1;
    }
    let at = sort + (v as usize);
    if marks[at] != 0 {
        return v + 1;
    }
    0
}
