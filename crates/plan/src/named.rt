// The records of a goal that name a type together with a role or a user, in a list for each type. All other records are asked once
// for a type or once for a pair of a role and a user; only these have to be asked for a context.
ghost use Rattle.std.specs.Prelude.{◌+◌, ◌≤◌, ◌<◌, length};
ghost use Rattle.base.specs.Inner.Decides.{Decides};
ghost use Rattle.goal_image.specs.Goal.{goal_of};
ghost use Rattle.goal_image.specs.Layout.{goal_count};
ghost use Rattle.goal_image.specs.Inner.Sound.{SoundGoal};
ghost use Rattle.plan_tables.specs.Inner.Tables.{type_entries};
ghost use Rattle.plan.specs.Inner.Regions.{record_entries, plan_entries};
ghost use Rattle.plan.specs.Inner.Named.{NamesBoth, RecordPut, Links, Linking, LinksPut};

use crate::fill::clear;
use crate::regions::{
    LINKS_START, MARKS_START, NAMED_START, RECORD_ROLES_START, RECORD_USERS_START, RECORDS,
};
use context::Context;
use goal_image::records::{ContextRecord, context_at, record_count};
use goal_image::sets::record_sets;
use plan_tables::TYPES;

// Whether the record names a type together with a role or a user.
fn names_both(r: ContextRecord) -> bool
    ensures { Decides result (NamesBoth r) }
{
    if r.ty == 0 {
        return false;
    }
    if TYPES <= r.ty as usize {
        return false;
    }
    if r.role != 0 {
        return true;
    }
    r.user != 0
}

// Puts a record that names what x does, with the σ chains that it is on, as record k before the list of its type.
pub fn put_record(k: usize, x: Context, marks: u32, plan: &mut [u32])
    requires { (k < record_entries) × (x.ty < type_entries) × (plan_entries ≤ length plan.old) }
    ensures { RecordPut k x marks plan.old plan.new }
{
    let head = NAMED_START + (x.ty as usize);
    plan[MARKS_START + k] = marks;
    plan[RECORD_ROLES_START + k] = x.role;
    plan[RECORD_USERS_START + k] = x.user;
    plan[LINKS_START + k] = plan[head];
    plan[head] = k as u32;
}

// Puts record k, where it is on a σ chain and names a type together with a role or a user, before the list of its type.
fn link(goal: &[u8], k: usize, plan: &mut [u32])
    requires { SoundGoal goal.now × (1 ≤ k) × (k ≤ goal_count goal.now) × (plan_entries ≤ length plan.old) × Links (goal_of goal.now) plan.old k }
    ensures { Linking (goal_of goal.now) plan.old plan.new (k + 1) }
{
    let r = context_at(goal, k);
    if !names_both(r) {
        return;
    }
    let marks = record_sets(goal, k);
    if marks == 0 {
        return;
    }
    put_record(k, Context::new(r.ty, r.role, r.user), marks, plan);
}

// The lists of all types.
pub fn put_links(goal: &[u8], plan: &mut [u32])
    requires { SoundGoal goal.now × (plan_entries ≤ length plan.old) }
    ensures { LinksPut (goal_of goal.now) plan.old plan.new }
{
    // no list has a record: the links stand behind the heads
    clear(plan, NAMED_START, TYPES + RECORDS);
    let count = record_count(goal);
    for k in 1..=count {
        link(goal, k, plan);
    }
}
