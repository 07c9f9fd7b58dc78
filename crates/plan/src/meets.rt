// Whether a context meets ρ and μ, by the policy's part of a plan.
ghost use Rattle.std.specs.Prelude.{◌≡◌, ◌≤◌, length};
ghost use Rattle.context.specs.Inner.Places.{OfType};
ghost use Rattle.plan.specs.Inner.Meets.{held_by};
ghost use Rattle.plan.specs.Inner.Plan.{PlanCounts};
ghost use Rattle.plan.specs.Inner.Regions.{plan_entries};

use crate::regions::{HOLDERS_START, ROLES_START};
use context::places::first_place;
use policy_image::counts::Counts;

// Whether the context at the place, of the type, meets ρ and μ.
pub fn is_held(counts: Counts, plan: &[u32], ty: u32, place: u32) -> bool
    requires { PlanCounts counts × (plan_entries ≤ length plan.now) × OfType counts ty place }
    ensures { result ≡ held_by counts plan.now ty place }
{
    let own = ROLES_START + (ty as usize);
    let pair = HOLDERS_START + ((place - first_place(counts, ty)) as usize);
    plan[own] & plan[pair] != 0
}
