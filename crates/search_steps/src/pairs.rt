// To which contexts of a type a step leads, as a set of pairs of a role and a user, by number: four words of 64 pairs.
ghost use Rattle.std.specs.Prelude.{◌≡◌, ◌-◌, ◌≤◌, ◌<◌, length, get_or};
ghost use Rattle.std.specs.Iterator.{at_most};
ghost use Rattle.policy_image.specs.Policy.{policy_of};
ghost use Rattle.plan.specs.Inner.Plan.{ruled};
ghost use Rattle.context.specs.Ranges.{ContextInRange};
ghost use Rattle.plan.specs.Inner.Regions.{role_entries, event_entries, plan_entries};
ghost use Rattle.search_constraints.specs.Inner.Asked.{Askable, AskedBefore};
ghost use Rattle.search_steps.specs.Inner.Steps.{Facing};
ghost use Rattle.search_steps.specs.Inner.Pairs.{pairs_end, changes_to, LikeEvent, RuleWord, WayWord, StepWord, StepPairs, NextPair, PairGiven, Asking};

use crate::sweep::Sweep;
use base::bits::{has_bit, lowest};
use constraints::leaves::ALL;
use context::{Context, Event};
use plan::regions::{CHANGES_START, GROUPS_START, READS_START, WRITES_START};
use search_constraints::asked::{Ask, MEMO, asked_word};
use search_constraints::marks::MARKS;
use search_constraints::rows::{ROW, ROWS};

// One more than the number of every pair.
pub const PAIRS_END: u32 = 256;

// What says where steps lead: the policy, the plan that was made of it, its pairs by role and by user, and marks on the
// types, roles and users that its constraints name.
#[derive(Clone, Copy)]
pub struct StepRules<'a> {
    pub policy: &'a [u8],
    pub plan: &'a [u32],
    pub rows: &'a [u64; ROWS],
    pub marks: &'a [u8; MARKS],
}

// An event with the same constraints, the lowest of those that no constraint tells apart.
fn like_event(plan: &[u32], event: u32) -> u32
    requires { (plan_entries ≤ length plan.now) × (event < event_entries) }
    ensures { LikeEvent plan.now event result }
{
    let group = plan[GROUPS_START + (event as usize)];
    if group == 0 {
        return event;
    }
    32 * (event / 32) + lowest(group)
}

// Whether the one role may change to the other: x's role to b where x acts, and else b to x's role.
fn may_change(plan: &[u32], acts: bool, role: u32, b: u32) -> bool
    requires { (plan_entries ≤ length plan.now) × (role < role_entries) × (b < role_entries) }
    ensures { result ≡ changes_to plan.now acts role b }
{
    if acts {
        return has_bit(plan[CHANGES_START + (role as usize)], b);
    }
    has_bit(plan[CHANGES_START + (b as usize)], role)
}

// Of which pairs the role rule holds.
fn rule_word(plan: &[u32], rows: &[u64; ROWS], a: Ask) -> u64
    requires { (plan_entries ≤ length plan.now) × Askable a }
    ensures { RuleWord plan.now rows.now a result }
{
    if a.event != Event::TRANSITION_CODE {
        return ALL;
    }
    let x = a.x;
    let at = ROW * (a.word as usize);
    let mut r: u64 = 0;
    for b in 0..16 {
        if may_change(plan, a.acts, x.role, b) {
            r |= rows[at + (b as usize)];
        }
    }
    r
}

// Of which pairs the constraints on the event and the role rule hold, where the event may be by types, ρ and μ.
fn way_word(rules: StepRules, memo: &mut [u64; MEMO], may: bool, a: Ask) -> u64
    requires { Asking rules.policy.now rules.plan.now rules.rows.now rules.marks.now memo.old × Askable a }
    ensures { WayWord (ruled rules.entry.policy.now rules.entry.plan.now) may a result × AskedBefore (policy_of rules.entry.policy.now) rules.entry.marks.now memo.new }
{
    if !may {
        return 0;
    }
    let x = a.x;
    let like = Ask {
        event: like_event(rules.plan, a.event),
        x,
        ty: a.ty,
        word: a.word,
        acts: a.acts,
    };
    asked_word(rules.policy, rules.rows, rules.marks, memo, like)
        & rule_word(rules.plan, rules.rows, a)
}

// To which of 64 pairs the step leads from x: the entry says which way the event may be.
fn step_word(rules: StepRules, memo: &mut [u64; MEMO], x: Context, sweep: Sweep, word: u32) -> u64
    requires { Asking rules.policy.now rules.plan.now rules.rows.now rules.marks.now memo.old × ContextInRange (policy_of rules.policy.now).counts x × Facing (ruled rules.policy.now rules.plan.now) rules.plan.now x sweep.event sweep.ty sweep.entry sweep.special × (word < 4) }
    ensures { StepWord (ruled rules.entry.policy.now rules.entry.plan.now) x sweep.event sweep.ty word result × AskedBefore (policy_of rules.entry.policy.now) rules.entry.marks.now memo.new }
{
    if !sweep.special {
        return ALL;
    }
    let perm = sweep.event % 32;
    let entry = sweep.entry;
    let out = has_bit(rules.plan[WRITES_START + entry], perm);
    let back = has_bit(rules.plan[READS_START + entry], perm);
    let acts = Ask {
        event: sweep.event,
        x,
        ty: sweep.ty,
        word,
        acts: true,
    };
    let acted = Ask {
        event: sweep.event,
        x,
        ty: sweep.ty,
        word,
        acts: false,
    };
    let written = way_word(rules, memo, out, acts);
    let read = way_word(rules, memo, back, acted);
    written | read
}

// To which of the pairs in the set the step leads from x.
pub fn step_pairs(
    rules: StepRules,
    memo: &mut [u64; MEMO],
    x: Context,
    sweep: Sweep,
    among: &[u64; 4],
) -> [u64; 4]
    requires { Asking rules.policy.now rules.plan.now rules.rows.now rules.marks.now memo.old × ContextInRange (policy_of rules.policy.now).counts x × Facing (ruled rules.policy.now rules.plan.now) rules.plan.now x sweep.event sweep.ty sweep.entry sweep.special }
    ensures { StepPairs (ruled rules.entry.policy.now rules.entry.plan.now) (policy_of rules.entry.policy.now).counts x sweep.event sweep.ty among.now result 4 × AskedBefore (policy_of rules.entry.policy.now) rules.entry.marks.now memo.new }
{
    let mut pairs = [0u64; 4];
    for w in 0..4 {
        let at = w as usize;
        let left = among[at];
        if left != 0 {
            let to = step_word(rules, memo, x, sweep, w);
            pairs[at] = left & to;
        }
    }
    pairs
}

// The i-th 64 pairs of the set.
fn word_at(set: &[u64; 4], i: usize) -> u64
    requires { i < 4 }
    ensures { result ≡ get_or set.now i 0 }
{
    set[i]
}

// The first pair of the set from a pair on, of those before the end.
pub fn next_pair(set: &[u64; 4], from: u32, end: u32) -> u32
    requires { (from ≤ pairs_end) × (end ≤ pairs_end) }
    ensures { NextPair set.now from end result }
{
    let mut at = from;
    while at < end {
        let left = word_at(set, (at / 64) as usize) >> (at % 64);
        if left != 0 {
            return at + u64::trailing_zeros(left);
        }
        at = 64 * (at / 64 + 1);
    }
    PAIRS_END
}

// The pairs of a set from a pair on, of those before the end, the first one first.
#[derive(Drop)]
pub struct Pairs<'a> {
    pub set: &'a [u64; 4],
    pub from: u32,
    pub end: u32,
}

// The pairs of the set before the end.
pub fn pairs_of(set: &[u64; 4], end: u32) -> Pairs<'_>
    ensures { (result.set.now ≡ set.now) × (result.from ≡ 0) × (result.end ≡ end) }
{
    Pairs { set, from: 0, end }
}

impl Iterator for Pairs<'_> {
    type Item = u32;

    ghost can_next = { λ s. (s.from ≤ pairs_end) × (s.end ≤ pairs_end) };

    ghost next_gives = { λ s r t. (t.set.now ≡ s.set.now) × (t.end ≡ s.end) × PairGiven s.set.now s.from s.end r t.from };

    ghost remaining = { λ s. at_most (pairs_end - s.from) };

    #[inline]
    fn next(&mut self) -> Option<u32> {
        let k = next_pair(self.set, self.from, self.end);
        if k == PAIRS_END {
            return None;
        }
        self.from = k + 1;
        Some(k)
    }
}
