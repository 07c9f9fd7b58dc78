// Of the permissions of an entry, those that stand for the others: the lowest of those that a search cannot tell apart.
ghost use Rattle.std.specs.Prelude.{◌≤◌, ◌<◌, length};
ghost use Rattle.base.specs.Inner.Fill.{Filled};
ghost use Rattle.plan.specs.Inner.Regions.{block_entries, leads_start, plan_entries};
ghost use Rattle.plan.specs.Inner.Plan.{PlanCounts, AlikePlan};
ghost use Rattle.plan.specs.Inner.Put.{Tops, LeadsPut};
ghost use Rattle.plan.specs.Inner.Leads.{AlikeCopy, Leading, EntryLeads};

use crate::regions::{
    ALIKE_START, FIRST_START, KEYS_START, LEADS_START, READS_START, TYPE_CODES, WRITES_START,
};
use base::bits::{lowest, with_bit, without};
use plan_tables::groups::EVENTS;
use policy_image::counts::Counts;

// What a plan has of the permissions that are alike, by event.
fn alike_in(plan: &[u32]) -> [u32; EVENTS]
    requires { plan_entries ≤ length plan.now }
    ensures { AlikeCopy plan.now result }
{
    let mut alike = [0u32; EVENTS];
    alike.copy_from_slice(&plan[ALIKE_START..ALIKE_START + EVENTS]);
    alike
}

// Of the permissions of a class in the mask, the lowest of those that are alike.
fn leading(alike: &[u32; EVENTS], class: u32, mask: u32) -> u32
    requires { class < 32 }
    ensures { Leading alike.now class mask result }
{
    let mut r: u32 = 0;
    let mut left = mask;
    while left != 0 {
        let q = lowest(left);
        let at = (32 * class + q) as usize;
        r = with_bit(r, q);
        left = without(left, with_bit(alike[at], q));
    }
    r
}

// The leading permissions of the first n entries.
fn lead_entries(alike: &[u32; EVENTS], n: usize, plan: &mut [u32])
    requires { (n ≤ block_entries) × (plan_entries ≤ length plan.old) }
    ensures { Filled (λ j v. EntryLeads alike.now plan.old j v) plan.old plan.new leads_start 0 n }
{
    for j in 0..n {
        let class = plan[KEYS_START + j] / TYPE_CODES % 32;
        let writes = leading(alike, class, plan[WRITES_START + j]);
        let reads = leading(alike, class, plan[READS_START + j]);
        plan[LEADS_START + j] = writes | reads;
    }
}

// The leading permissions of all entries.
pub fn put_leads(counts: Counts, plan: &mut [u32])
    requires { PlanCounts counts × Tops counts.types plan.old × AlikePlan plan.old × (plan_entries ≤ length plan.old) }
    ensures { LeadsPut counts.types plan.old plan.new }
{
    let alike = alike_in(plan);
    let last = (counts.types + 1) as usize;
    let n = plan[FIRST_START + last] as usize;
    lead_entries(&alike, n, plan);
}
