// A step, as what is asked of the contexts of a type.
ghost use Rattle.std.specs.Prelude.{◌≡◌, ◌/◌, ◌%◌, ◌≤◌, ◌<◌, length};
ghost use Rattle.base.specs.Ranges.{Within};
ghost use Rattle.plan.specs.Inner.Plan.{PlanCounts};
ghost use Rattle.plan.specs.Inner.Regions.{event_entries, plan_entries, type_codes};
ghost use Rattle.search_steps.specs.Inner.Sweeps.{sweep_at};

use crate::nearest::Offer;
use crate::targets::is_special;
use context::places::first_place;
use plan::regions::{EVENT_SETS_START, TYPE_CODES};
use policy_image::counts::Counts;

// An event, the sets that it is in, whether it is special: its flow depends on more than types, ρ and μ, and the entry that offers it; a type,
// and the place of its first context.
#[derive(Clone, Copy)]
pub struct Sweep {
    pub event: u32,
    pub sets: u32,
    pub special: bool,
    pub entry: usize,
    pub ty: u32,
    pub start: u32,
}

// The sweep of a step.
pub fn sweep_of(counts: Counts, plan: &[u32], offer: Offer) -> Sweep
    requires { PlanCounts counts × (plan_entries ≤ length plan.now) × (offer.step / type_codes < event_entries) × Within 1 counts.types (offer.step % type_codes) }
    ensures { result ≡ sweep_at counts plan.now offer }
{
    let event = offer.step / TYPE_CODES;
    let ty = offer.step % TYPE_CODES;
    Sweep {
        event,
        sets: plan[EVENT_SETS_START + (event as usize)],
        special: is_special(plan, event),
        entry: offer.entry,
        ty,
        start: first_place(counts, ty),
    }
}
