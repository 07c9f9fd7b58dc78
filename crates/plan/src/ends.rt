// The goal's part of a plan where a question has two contexts and no goal: σ0 has the first alone, σ1 the second alone, no context is
// excepted, and no event is in a set. A search then goes from the first to the second.
ghost use Rattle.std.specs.Prelude.{◌≤◌, length};
ghost use Rattle.context.specs.Ranges.{ContextInRange};
ghost use Rattle.plan.specs.Inner.Plan.{PlanCounts};
ghost use Rattle.plan.specs.Inner.Ends.{EndsPut};
ghost use Rattle.plan.specs.Inner.Regions.{plan_entries};

use crate::alike::put_alikes;
use crate::fill::clear;
use crate::named::put_record;
use crate::regions::{EVENT_SETS_START, MARKS_START};
use context::Context;
use policy_image::counts::Counts;

// Puts that part over that of a policy with the counts. Each context has a record of its own, which names its type together with its role
// and its user.
pub fn put_ends(from: Context, to: Context, counts: Counts, plan: &mut [u32])
    requires { ContextInRange counts from × ContextInRange counts to × PlanCounts counts × (plan_entries ≤ length plan.old) }
    ensures { EndsPut from to counts plan.old plan.new }
{
    // the sets of events, types and pairs, the heads and the links stand one behind the other
    clear(plan, EVENT_SETS_START, MARKS_START - EVENT_SETS_START);
    // the first record is on σ0, whose mark is bit 0, the second on σ1
    put_record(1, from, 1, plan);
    put_record(2, to, 2, plan);
    put_alikes(counts.classes, plan);
}
