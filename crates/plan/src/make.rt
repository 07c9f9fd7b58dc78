// The part of the policy, apart from its allow records.
ghost use Rattle.std.specs.Prelude.{◌≤◌, length};
ghost use Rattle.policy_image.specs.Policy.{policy_of};
ghost use Rattle.policy_check.specs.Inner.Sound.{Sound};
ghost use Rattle.plan.specs.Inner.Plan.{Ready, Tabled, PolicyPlan};
ghost use Rattle.plan.specs.Inner.Put.{GroupsPut};
ghost use Rattle.plan.specs.Inner.Regions.{plan_entries};

use crate::fill::put;
use crate::held::put_held;
use crate::regions::{CHANGES_START, GROUPS_START, SPECIAL_START};
use base::bits::with_bit;
use context::Event;
use plan_tables::groups::{EVENTS, constraint_groups};
use plan_tables::{CLASSES, ROLES, constraint_masks, role_changes};
use policy_image::counts::Counts;

// The classes' special permissions, and the roles' changes.
fn put_tables(policy: &[u8], plan: &mut [u32])
    requires { Sound policy.now × (plan_entries ≤ length plan.old) }
    ensures { Tabled (policy_of policy.now) plan.new }
{
    let mut special = constraint_masks(policy);
    let class = Event::TRANSITION.class as usize;
    special[class] = with_bit(special[class], Event::TRANSITION.perm);
    put(plan, SPECIAL_START, CLASSES, &special);
    let changes = role_changes(policy);
    put(plan, CHANGES_START, ROLES, &changes);
}

// By event the permissions that no constraint tells from it.
fn put_groups(policy: &[u8], plan: &mut [u32])
    requires { Sound policy.now × (plan_entries ≤ length plan.old) }
    ensures { GroupsPut (policy_of policy.now) plan.old plan.new }
{
    let groups = constraint_groups(policy);
    put(plan, GROUPS_START, EVENTS, &groups);
}

// Makes the part of the policy.
pub fn make_plan(policy: &[u8], counts: Counts, plan: &mut [u32])
    requires { Ready policy.now counts × (plan_entries ≤ length plan.old) }
    ensures { PolicyPlan (policy_of policy.now) counts plan.new }
{
    put_tables(policy, plan);
    put_groups(policy, plan);
    put_held(policy, counts, plan);
}
