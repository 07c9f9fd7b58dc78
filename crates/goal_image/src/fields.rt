// Question 10: the fields of a goal's records, each record read by the chain that it is on.
ghost use Rattle.std.specs.Prelude.{◌≡◌, ℕ, ◌≤◌, ◌<◌};
ghost use Rattle.base.specs.Chain.{OnChain};
ghost use Rattle.base.specs.Inner.Decides.{Decides};
ghost use Rattle.goal_image.specs.Layout.{GoalExact, goal_count};
ghost use Rattle.goal_image.specs.Goal.{goal_of, goal_links, is_context_chain, is_event_chain};
ghost use Rattle.goal_image.specs.Questions.{OneChainEach, ContextFits, EventFits, FieldsFit};
ghost use Rattle.goal_image.specs.Inner.Reading.{chain_count, RecordFits};

use crate::chain::records_on;
use crate::records::{CHAINS, ContextRecord, EventRecord, context_at, event_at};
use policy_image::counts::Counts;

// Whether h is the number of a σ chain: σ0 to σ6, σe.
pub fn is_context_chain(h: usize) -> bool
    ensures { result ≡ is_context_chain h }
{
    h < 7 || h == 13
}

// Whether h is the number of a γ chain: γ0 to γ5, γe.
pub fn is_event_chain(h: usize) -> bool
    ensures { result ≡ is_event_chain h }
{
    (7 <= h && h < 13) || h == 14
}

// Whether a record of a σ chain has its fields at most their counts, and its spare bytes 0.
fn context_fits(r: ContextRecord, counts: Counts) -> bool
    ensures { Decides result (ContextFits counts r) }
{
    r.ty <= counts.types && r.role <= counts.roles && r.user <= counts.users && r.spare == 0
}

// Whether a record of a γ chain has its class at most the count, and its spare byte 0.
fn event_fits(r: EventRecord, counts: Counts) -> bool
    ensures { Decides result (EventFits counts r) }
{
    r.class <= counts.classes && r.spare == 0
}

// Whether record i keeps the rules, as one of chain h.
fn record_fits(goal: &[u8], counts: Counts, h: usize, i: usize) -> bool
    requires { GoalExact goal.now × (1 ≤ i) × (i ≤ goal_count goal.now) × (h < chain_count) }
    ensures { Decides result (RecordFits counts (goal_of goal.now) h i) }
{
    if is_context_chain(h) {
        context_fits(context_at(goal, i), counts)
    } else {
        event_fits(event_at(goal, i), counts)
    }
}

// Whether every record of chain h keeps the rules.
fn chain_fits(goal: &[u8], counts: Counts, h: usize) -> bool
    requires { GoalExact goal.now × OneChainEach (goal_of goal.now) × (h < chain_count) }
    ensures { Decides result ((i : ℕ) → OnChain (goal_links (goal_of goal.now)) h i → RecordFits counts (goal_of goal.now) h i) }
{
    records_on(goal, h).all(|i| record_fits(goal, counts, h, i))
}

// Question 10.
pub fn fields_fit(goal: &[u8], counts: Counts) -> bool
    requires { GoalExact goal.now × OneChainEach (goal_of goal.now) }
    ensures { Decides result (FieldsFit counts (goal_of goal.now)) }
{
    (0..CHAINS).all(|h| chain_fits(goal, counts, h))
}
