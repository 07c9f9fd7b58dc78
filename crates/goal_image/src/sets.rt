// The sets of an accepted goal: in which of them a context is, on which chains a record is, and which permissions of a
// class a set has. A call follows a chain at most once, so that it meets each record at most once.
ghost use Rattle.std.specs.Prelude.{◌≡◌, ℕ, ◌<◌};
ghost use Rattle.base.specs.Bits.{bit};
ghost use Rattle.context.specs.Codes.{event_at};
ghost use Rattle.goal_image.specs.Goal.{goal_of};
ghost use Rattle.goal_image.specs.Sets.{fits, matches_context, matches_event};
ghost use Rattle.goal_image.specs.Inner.Reading.{chain_count};
ghost use Rattle.goal_image.specs.Inner.Memberships.{TakesRecords, PassesOn, ContextSets, RecordSets, ChainMask};
ghost use Rattle.goal_image.specs.Inner.Sound.{SoundGoal};

use crate::chain::records_on;
use crate::fields::{is_context_chain, is_event_chain};
use crate::records::{CHAINS, ContextRecord, EventRecord, context_at, event_at};
use context::Context;

// The sets of a context or an event are bits, by the numbers of the goal's chains: bit i for σi, bit EVENT_CHAINS + i for
// γi, and one for each exception, σe and γe.
pub const EVENT_CHAINS: u32 = 7;

pub const EXCEPTED_CONTEXTS: u32 = 13;

pub const EXCEPTED_EVENTS: u32 = 14;

// Whether the field of a record is any, or the value.
pub fn fits_field(field: u32, value: u32) -> bool
    ensures { result ≡ fits field value }
{
    field == 0 || field == value
}

// Whether the record of a σ chain matches the context.
pub fn matches_context(r: ContextRecord, x: Context) -> bool
    ensures { result ≡ matches_context r x }
{
    fits_field(r.ty, x.ty) && fits_field(r.role, x.role) && fits_field(r.user, x.user)
}

// Whether h is a σ chain, and some record on it passes the test.
fn is_in<F: Fn(usize) -> bool>(goal: &[u8], h: usize, passes: &F) -> bool
    requires { SoundGoal goal.now × (h < chain_count) × TakesRecords (goal_of goal.now) (F.pre passes.now) }
    ensures { PassesOn (goal_of goal.now) (F.post passes.now) h result }
{
    is_context_chain(h) && records_on(goal, h).any(passes)
}

// The σ chains with a record that passes the test: bit h for chain h.
fn sets<F: Fn(usize) -> bool>(goal: &[u8], passes: F) -> u32
    requires { SoundGoal goal.now × TakesRecords (goal_of goal.now) (F.pre passes) }
    ensures { (h : ℕ) → PassesOn (goal_of goal.now) (F.post passes) h (bit result h) }
{
    let mut mask: u32 = 0;
    for h in 0..CHAINS {
        if is_in(goal, h, &passes) {
            mask |= 1 << h;
        }
    }
    mask
}

// The σ sets that the context is in: bit h for chain h.
pub fn context_sets(goal: &[u8], x: Context) -> u32
    requires { SoundGoal goal.now }
    ensures { ContextSets (goal_of goal.now) x result }
{
    sets(goal, |i| matches_context(context_at(goal, i), x))
}

// The σ chains that record k is on: bit h for chain h.
pub fn record_sets(goal: &[u8], k: usize) -> u32
    requires { SoundGoal goal.now }
    ensures { RecordSets (goal_of goal.now) k result }
{
    sets(goal, |i| i == k)
}

// The permissions of the class that the record of a γ chain has.
fn class_mask(r: EventRecord, class: u32) -> u32
    ensures { (q : ℕ) → bit result q ≡ matches_event r (event_at class q) }
{
    if fits_field(r.class, class) {
        r.mask
    } else {
        0
    }
}

// The permissions of the class that are in the set of chain h, where it is a γ chain: bit q for permission q.
pub fn chain_mask(goal: &[u8], h: usize, class: u32) -> u32
    requires { SoundGoal goal.now × (h < chain_count) }
    ensures { ChainMask (goal_of goal.now) h class result }
{
    if !is_event_chain(h) {
        return 0;
    }
    let mut mask: u32 = 0;
    for i in records_on(goal, h) {
        mask |= class_mask(event_at(goal, i), class);
    }
    mask
}
