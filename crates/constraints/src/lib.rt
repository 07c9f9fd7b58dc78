// The constraints of a policy, for up to 64 pairs of contexts at once: expression nodes evaluated, and all constraints on an event. What is
// asked of one pair is a bit of that.
#![tactic(auto)]

pub mod leaves;

ghost use Rattle.std.specs.Prelude.{◌≡◌, not, ◌<◌};
ghost use Rattle.base.specs.Bits.{bit};
ghost use Rattle.policy_image.specs.Layout.{root_of};
ghost use Rattle.policy_image.specs.Policy.{policy_of};
ghost use Rattle.policy_image.specs.Inner.Reading.{Bytes};
ghost use Rattle.policy_expressions.specs.Nodes.{IsNode};
ghost use Rattle.policy_check.specs.Inner.Sound.{Sound};
ghost use Rattle.constraints.specs.Constraints.{constraints_hold};
ghost use Rattle.constraints.specs.Inner.Words.{Word, NodeWord, ConstraintWord, EventWord};

use crate::leaves::{ALL, LEAVES, leaf, one_pair};
use base::bits::{has_bit, has_member};
use context::{Context, Event};
use policy_image::kinds::{AND, Kind, NOT, OR};
use policy_image::records::{Record, record_at};
use policy_links::records::records_of;

// The bits that w does not have.
fn flipped(w: u64) -> u64
    ensures { Word 64 (λ j. not (bit w j)) result }
{
    ALL & (ALL ^ w)
}

// The value of a node, of each pair that the leaves are of.
// A constraint has 4,094 nodes at the most, beside its own record; in a row they are as many calls on the stack at once.
fn eval(policy: &[u8], node: usize, leaves: &[u64; LEAVES]) -> u64
    requires { Sound policy.now × IsNode (policy_of policy.now) node }
    ensures { NodeWord (policy_of policy.now) leaves.now node result }
{
    let r = record_at(policy, node);
    let op = r.a;
    let left = (r.mask % 65536) as usize;
    let right = (r.mask / 65536) as usize;
    match op {
        NOT => flipped(eval(policy, left, leaves)),
        AND => eval(policy, left, leaves) & eval(policy, right, leaves),
        OR => eval(policy, left, leaves) | eval(policy, right, leaves),
        _ => leaf(leaves, op, r.b),
    }
}

// Whether the constraint r is true, or is not on the event.
fn constraint_word(policy: &[u8], r: Record, e: Event, leaves: &[u64; LEAVES]) -> u64
    requires sound { Sound policy.now × IsNode (policy_of policy.now) (root_of r) }
    requires bytes { Bytes r × (e.perm < 32) }
    ensures { ConstraintWord (policy_of policy.now) r e leaves.now result }
{
    if r.a != e.class {
        return ALL;
    }
    if !has_bit(r.mask, e.perm) {
        return ALL;
    }
    eval(policy, (r.d + 256 * r.e) as usize, leaves)
}

// Whether all constraints on the event are true, of each pair that the leaves are of.
pub fn constraints_word(policy: &[u8], e: Event, leaves: &[u64; LEAVES]) -> u64
    requires { Sound policy.now × (e.perm < 32) }
    ensures { EventWord (policy_of policy.now) e leaves.now result }
{
    let mut all = ALL;
    for r in records_of(policy, Kind::Constraint) {
        all &= constraint_word(policy, r, e, leaves);
    }
    all
}

// Whether all constraints on the event are true: x acts, y is acted on.
pub fn constraints_hold(policy: &[u8], e: Event, x: Context, y: Context) -> bool
    requires { Sound policy.now × (e.perm < 32) }
    ensures { result ≡ constraints_hold (policy_of policy.now) e x y }
{
    let leaves = one_pair(x, y);
    has_member(constraints_word(policy, e, &leaves), 0)
}
