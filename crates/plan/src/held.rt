// What ρ and μ of a context are read from: by type and by pair of a role and a user, so that no table has an entry for each context.
ghost use Rattle.std.specs.Prelude.{◌≤◌, length};
ghost use Rattle.base.specs.Inner.Fill.{Filled};
ghost use Rattle.policy_image.specs.Policy.{policy_of};
ghost use Rattle.policy_check.specs.Inner.Sound.{Sound};
ghost use Rattle.plan.specs.Inner.Plan.{PlanCounts, HolderOf};
ghost use Rattle.plan.specs.Inner.Put.{HeldPut};
ghost use Rattle.plan.specs.Inner.Regions.{holders_start, plan_entries};
ghost use Rattle.context.specs.Inner.Places.{pair_count};

use crate::fill::put;
use crate::regions::{HOLDERS_START, ROLES_START};
use plan_tables::{TYPES, role_table, user_table};
use policy_image::counts::Counts;

// For each pair its role, where its user may hold it.
fn put_holders(policy: &[u8], counts: Counts, plan: &mut [u32])
    requires { Sound policy.now × PlanCounts counts × (plan_entries ≤ length plan.old) }
    ensures { Filled (λ i v. HolderOf (policy_of policy.now) counts i v) plan.old plan.new holders_start 0 (pair_count counts) }
{
    let users = user_table(policy);
    let pairs = counts.roles * counts.users;
    for i in 0..pairs {
        let role = i / counts.users + 1;
        let user = (i % counts.users + 1) as usize;
        let at = HOLDERS_START + (i as usize);
        plan[at] = users[user] & (1 << role);
    }
}

// The roles of each type, and the holders of each pair.
pub fn put_held(policy: &[u8], counts: Counts, plan: &mut [u32])
    requires { Sound policy.now × PlanCounts counts × (plan_entries ≤ length plan.old) }
    ensures { HeldPut (policy_of policy.now) counts plan.old plan.new }
{
    let roles = role_table(policy);
    put(plan, ROLES_START, TYPES, &roles);
    put_holders(policy, counts, plan);
}
