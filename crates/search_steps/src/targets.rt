// Whether a step that a plan offers leads to a context.
ghost use Rattle.std.specs.Prelude.{◌≡◌, true, ◌&&◌, ◌≤◌, ◌<◌, length};
ghost use Rattle.context.specs.Codes.{event_of};
ghost use Rattle.context.specs.Ranges.{ContextInRange};
ghost use Rattle.context.specs.Inner.Places.{context_count, context_at_index};
ghost use Rattle.access.specs.Authorization.{role_rule, flow};
ghost use Rattle.constraints.specs.Constraints.{constraints_hold};
ghost use Rattle.goal_model.specs.Images.{meetsρμ};
ghost use Rattle.policy_check.specs.Inner.Sound.{Sound};
ghost use Rattle.plan.specs.Inner.Plan.{Ready, Planned, ruled};
ghost use Rattle.plan.specs.Inner.Regions.{role_entries, event_entries, plan_entries};
ghost use Rattle.search_steps.specs.Inner.Steps.{special_by, Conditions, Offering, Facing};

use base::bits::has_bit;
use constraints::constraints_hold;
use context::{Context, Event};
use plan::regions::{CHANGES_START, READS_START, SPECIAL_START, WRITES_START};
use policy_image::counts::Counts;

// Whether the event is one whose flow depends on more than types, ρ and μ.
pub fn is_special(plan: &[u32], event: u32) -> bool
    requires { (plan_entries ≤ length plan.now) × (event < event_entries) }
    ensures { result ≡ special_by plan.now event }
{
    let class = (event / 32) as usize;
    has_bit(plan[SPECIAL_START + class], event % 32)
}

// Whether the event may be, by types, ρ and μ, and the constraints on it and the role rule hold: x acts, y is acted on.
fn may_act(policy: &[u8], plan: &[u32], event: u32, may: bool, x: Context, y: Context) -> bool
    requires { Sound policy.now × Conditions (ruled policy.now plan.now) plan.now × (event < event_entries) × (x.role < role_entries) × (y.role < role_entries) }
    ensures { result ≡ (may && (constraints_hold (ruled policy.now plan.now) (event_of event) x y && role_rule (ruled policy.now plan.now) (event_of event) x y)) }
{
    let e = Event::decode(event);
    let role = x.role as usize;
    may && constraints_hold(policy, e, x, y)
        && (!e.is_transition() || has_bit(plan[CHANGES_START + role], y.role))
}

// Whether the event flows from x to y, both of which meet ρ and μ: the entry says which way it may.
fn flows_by(policy: &[u8], plan: &[u32], event: u32, entry: usize, x: Context, y: Context) -> bool
    requires { Sound policy.now × Conditions (ruled policy.now plan.now) plan.now × (x.role < role_entries) × (y.role < role_entries) × (meetsρμ (ruled policy.now plan.now) x ≡ true) × (meetsρμ (ruled policy.now plan.now) y ≡ true) × Offering (ruled policy.now plan.now) plan.now x.ty event y.ty entry }
    ensures { result ≡ flow (ruled policy.now plan.now) (event_of event) x y }
{
    let perm = event % 32;
    let out = has_bit(plan[WRITES_START + entry], perm);
    let back = has_bit(plan[READS_START + entry], perm);
    may_act(policy, plan, event, out, x, y) || may_act(policy, plan, event, back, y, x)
}

// Whether the event flows from x to the context at the place, which meets ρ and μ, and to whose type the entry offers it.
pub fn is_target(
    policy: &[u8],
    counts: Counts,
    plan: &[u32],
    x: Context,
    event: u32,
    entry: usize,
    special: bool,
    place: u32,
) -> bool
    requires { Ready policy.now counts × Planned policy.now counts plan.now × ContextInRange counts x × (place < context_count counts) × Facing (ruled policy.now plan.now) plan.now x event (context_at_index counts place).ty entry special × (meetsρμ (ruled policy.now plan.now) (context_at_index counts place) ≡ true) }
    ensures { result ≡ flow (ruled policy.now plan.now) (event_of event) x (context_at_index counts place) }
{
    !special || flows_by(policy, plan, event, entry, x, Context::at(place, counts))
}
