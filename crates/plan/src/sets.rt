// The σ sets of a context, by the goal's part of a plan.
ghost use Rattle.std.specs.Prelude.{◌≡◌, ◌≤◌, ◌<◌, length};
ghost use Rattle.context.specs.Inner.Places.{context_at_index, OfType};
ghost use Rattle.plan_tables.specs.Inner.Tables.{type_entries};
ghost use Rattle.plan.specs.Inner.Plan.{PlanCounts};
ghost use Rattle.plan.specs.Inner.Regions.{plan_entries};
ghost use Rattle.plan.specs.Inner.Sets.{Falls, listed_for, sets_of};

use crate::regions::{
    LINKS_START, MARKS_START, NAMED_START, PAIR_SETS_START, RECORD_ROLES_START, RECORD_USERS_START,
    TYPE_SETS_START,
};
use context::Context;
use context::places::first_place;
use goal_image::sets::fits_field;
use policy_image::counts::Counts;

// The sets that x is in by records that name its type together with a role or a user.
fn named_sets(plan: &[u32], x: Context) -> u32
    requires { Falls plan.now × (plan_entries ≤ length plan.now) × (x.ty < type_entries) }
    ensures { result ≡ listed_for plan.now x }
{
    let mut sets: u32 = 0;
    let mut k = plan[NAMED_START + (x.ty as usize)] as usize;
    while k != 0 {
        let role = fits_field(plan[RECORD_ROLES_START + k], x.role);
        let user = fits_field(plan[RECORD_USERS_START + k], x.user);
        if role & user {
            sets |= plan[MARKS_START + k];
        }
        k = plan[LINKS_START + k] as usize;
    }
    sets
}

// The sets that the context at place y, of the type, is in. Role and user are worked out only where some record names them with
// the type.
pub fn sets_at(counts: Counts, plan: &[u32], ty: u32, y: u32) -> u32
    requires { PlanCounts counts × Falls plan.now × (plan_entries ≤ length plan.now) × OfType counts ty y }
    ensures { result ≡ sets_of counts plan.now (context_at_index counts y) }
{
    let i = y - first_place(counts, ty);
    let own = ty as usize;
    let pair = i as usize;
    let sets = plan[TYPE_SETS_START + own] | plan[PAIR_SETS_START + pair];
    if plan[NAMED_START + own] == 0 {
        return sets;
    }
    let x = Context::new(ty, i / counts.users + 1, i % counts.users + 1);
    sets | named_sets(plan, x)
}
