// The goal's part of a plan: the sets of its events and contexts, and the permissions that they do not tell apart.
ghost use Rattle.std.specs.Prelude.{◌+◌, ◌*◌, ◌≤◌, ◌<◌, length, get_or};
ghost use Rattle.base.specs.Bits.{bit};
ghost use Rattle.base.specs.Inner.Fill.{Filled};
ghost use Rattle.context.specs.Codes.{context_at, event_at, event_of};
ghost use Rattle.goal_image.specs.Goal.{goal_of};
ghost use Rattle.goal_image.specs.Inner.Memberships.{ContextSets, EventSets};
ghost use Rattle.goal_image.specs.Inner.Sound.{SoundGoal};
ghost use Rattle.plan_tables.specs.Inner.Tables.{type_entries};
ghost use Rattle.plan.specs.Inner.Plan.{PlanCounts, PairSets};
ghost use Rattle.plan.specs.Inner.Put.{GoalPut, WithIf};
ghost use Rattle.plan.specs.Inner.Regions.{class_entries, event_sets_start, type_sets_start, pair_sets_start, plan_entries};
ghost use Rattle.context.specs.Inner.Places.{pair_count};

use crate::alike::put_alikes;
use crate::fill::clear;
use crate::named::put_links;
use crate::regions::{EVENT_SETS_START, PAIR_SETS_START, TYPE_SETS_START};
use base::bits::{bits_of, with_bit};
use context::Context;
use goal_image::records::CHAINS;
use goal_image::sets::{EVENT_CHAINS, chain_mask, context_sets};
use policy_image::counts::Counts;

// Puts chain h into the sets of those of the 32 events from a place on whose permissions the mask has.
fn put_chain(mask: u32, h: u32, at: usize, plan: &mut [u32])
    requires { (h < 32) × (at + 32 ≤ length plan.old) }
    ensures { Filled (λ q v. WithIf (get_or plan.old (at + q) 0) h (bit mask q) v) plan.old plan.new at 0 32 }
{
    for q in bits_of(mask) {
        let i = at + (q as usize);
        plan[i] = with_bit(plan[i], h);
    }
}

// The sets of the events of a class, chain by chain, so that each record of a γ chain is met once for all of them.
fn put_class(goal: &[u8], class: u32, plan: &mut [u32])
    requires { SoundGoal goal.now × (class < class_entries) × (plan_entries ≤ length plan.old) }
    ensures { Filled (λ q v. EventSets (goal_of goal.now) (event_at class q) v) plan.old plan.new (event_sets_start + 32 * class) 0 32 }
{
    let at = EVENT_SETS_START + ((32 * class) as usize);
    clear(plan, at, 32);
    for h in EVENT_CHAINS as usize..CHAINS {
        put_chain(chain_mask(goal, h, class), h as u32, at, plan);
    }
}

// The sets of the events of the policy's classes.
fn put_events(goal: &[u8], classes: u32, plan: &mut [u32])
    requires { SoundGoal goal.now × (classes < class_entries) × (plan_entries ≤ length plan.old) }
    ensures { Filled (λ e v. EventSets (goal_of goal.now) (event_of e) v) plan.old plan.new event_sets_start 32 (32 * (classes + 1)) }
{
    for class in 1..=classes {
        put_class(goal, class, plan);
    }
}

// The sets that each type gives its contexts.
fn put_type_sets(goal: &[u8], types: u32, plan: &mut [u32])
    requires { SoundGoal goal.now × (types < type_entries) × (plan_entries ≤ length plan.old) }
    ensures { Filled (λ t v. ContextSets (goal_of goal.now) (context_at t 0 0) v) plan.old plan.new type_sets_start 1 (types + 1) }
{
    for t in 1..=types {
        let at = TYPE_SETS_START + (t as usize);
        plan[at] = context_sets(goal, Context::new(t, 0, 0));
    }
}

// The sets that each pair gives its contexts.
fn put_pair_sets(goal: &[u8], counts: Counts, plan: &mut [u32])
    requires { SoundGoal goal.now × PlanCounts counts × (plan_entries ≤ length plan.old) }
    ensures { Filled (λ i v. PairSets (goal_of goal.now) counts i v) plan.old plan.new pair_sets_start 0 (pair_count counts) }
{
    let pairs = counts.roles * counts.users;
    for i in 0..pairs {
        let x = Context::new(0, i / counts.users + 1, i % counts.users + 1);
        let at = PAIR_SETS_START + (i as usize);
        plan[at] = context_sets(goal, x);
    }
}

// Puts the part of the goal over that of a policy with the counts.
pub fn put_goal(goal: &[u8], counts: Counts, plan: &mut [u32])
    requires { SoundGoal goal.now × PlanCounts counts × (plan_entries ≤ length plan.old) }
    ensures { GoalPut goal.now counts plan.old plan.new }
{
    put_events(goal, counts.classes, plan);
    put_type_sets(goal, counts.types, plan);
    put_pair_sets(goal, counts, plan);
    put_links(goal, plan);
    put_alikes(counts.classes, plan);
}
