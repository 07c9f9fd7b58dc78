// The permissions of a class that no constraint tells apart.
ghost use Rattle.std.specs.Prelude.{◌+◌, ◌*◌, ◌≤◌, ◌<◌, length, get_or};
ghost use Rattle.base.specs.Inner.Fill.{Filled};
ghost use Rattle.policy_image.specs.Policy.{policy_of};
ghost use Rattle.policy_check.specs.Inner.Sound.{Sound};
ghost use Rattle.plan_tables.specs.Inner.Groups.{OnSide, ConstraintGroups};

use base::bits::{has_bit, without};
use policy_image::kinds::Kind;
use policy_links::records::records_of;

// A table by events has an entry for each permission of each class number below 32.
pub const EVENTS: usize = 1024;

const ALL: u32 = 4294967295;

// The permissions of the group that are in the mask where q is, and outside where q is not.
fn side(group: u32, mask: u32, q: u32) -> u32
    requires { q < 32 }
    ensures { OnSide group mask q result }
{
    if has_bit(mask, q) {
        group & mask
    } else {
        without(group, mask)
    }
}

// Tells the permissions of a class that are in the mask from the others.
fn tell_apart(groups: &mut [u32], class: u32, mask: u32)
    requires { (class < 32) × (1024 ≤ length groups.old) }
    ensures { Filled (λ q v. OnSide (get_or groups.old (32 * class + q) 0) mask q v) groups.old groups.new (32 * class) 0 32 }
{
    let first = (32 * class) as usize;
    for q in 0..32 {
        let at = first + (q as usize);
        groups[at] = side(groups[at], mask, q);
    }
}

// For each event the permissions of its class that have the same constraints.
pub fn constraint_groups(policy: &[u8]) -> [u32; EVENTS]
    requires { Sound policy.now }
    ensures { ConstraintGroups (policy_of policy.now) result }
{
    let mut groups = [ALL; EVENTS];
    for r in records_of(policy, Kind::Constraint) {
        tell_apart(&mut groups, r.a, r.mask);
    }
    groups
}
