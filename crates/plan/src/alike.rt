// Which permissions of a class a search cannot tell apart: those that are in the same sets and have the same constraints.
ghost use Rattle.std.specs.Prelude.{◌≤◌, ◌<◌, length};
ghost use Rattle.plan.specs.Inner.Regions.{class_entries, plan_entries};
ghost use Rattle.plan.specs.Inner.Put.{AlikePut};
ghost use Rattle.plan.specs.Inner.Leads.{NotTransition, SameSets, Shared, AlikeTable};

use crate::fill::put;
use crate::regions::{ALIKE_START, EVENT_SETS_START, GROUPS_START};
use base::bits::{bits_of, lowest, with_bit, without};
use context::Event;
use plan_tables::groups::EVENTS;

// All permissions of a class.
const ALL: u32 = 4294967295;

// The permissions of a class without process transition, which is like no other.
fn not_transition(class: u32) -> u32
    ensures { NotTransition class result }
{
    if class == Event::TRANSITION.class {
        return without(ALL, with_bit(0, Event::TRANSITION.perm));
    }
    ALL
}

// The permissions of the class that are in just these sets of the goal. All 32 are looked at, few as may be left: the compiler makes
// that few instructions.
fn same_sets(plan: &[u32], class: u32, sets: u32) -> u32
    requires { (class < 32) × (plan_entries ≤ length plan.now) }
    ensures { SameSets plan.now class sets result }
{
    let first = (32 * class) as usize;
    let mut r: u32 = 0;
    for q in 0..32 {
        let at = first + (q as usize);
        if plan[EVENT_SETS_START + at] == sets {
            r = with_bit(r, q);
        }
    }
    r
}

// Puts the mask into the entry of each permission of the class that is in it.
fn share(class: u32, mask: u32, alike: &mut [u32; EVENTS])
    requires { class < 32 }
    ensures { Shared class mask alike.old alike.new }
{
    for q in bits_of(mask) {
        alike[(32 * class + q) as usize] = mask;
    }
}

// Puts into the entry of each permission of the class but process transition those that a search cannot tell from it: they have the
// same constraints and are in the same sets. To be so is mutual, so that a set is found once, for its lowest permission.
fn put_alike(plan: &[u32], class: u32, alike: &mut [u32; EVENTS])
    requires { (class < 32) × (plan_entries ≤ length plan.now) × AlikeTable plan.now alike.old }
    ensures { AlikeTable plan.now alike.new }
{
    let mut left = not_transition(class);
    while left != 0 {
        let q = lowest(left);
        let at = (32 * class + q) as usize;
        let same = same_sets(plan, class, plan[EVENT_SETS_START + at]);
        let set = left & plan[GROUPS_START + at] & same;
        share(class, set, alike);
        left = without(left, with_bit(set, q));
    }
}

// For each event of the policy's classes but process transition, which is like no other, the permissions of its class that a search
// cannot tell from it.
fn alike_table(classes: u32, plan: &[u32]) -> [u32; EVENTS]
    requires { (classes < class_entries) × (plan_entries ≤ length plan.now) }
    ensures { AlikeTable plan.now result }
{
    let mut alike = [0u32; EVENTS];
    for class in 1..=classes {
        put_alike(plan, class, &mut alike);
    }
    alike
}

// Puts the permissions that are alike into a plan, by event. The groups of the events and their sets are there.
pub fn put_alikes(classes: u32, plan: &mut [u32])
    requires { (classes < class_entries) × (plan_entries ≤ length plan.old) }
    ensures { AlikePut plan.old plan.new }
{
    let alike = alike_table(classes, plan);
    put(plan, ALIKE_START, EVENTS, &alike);
}
