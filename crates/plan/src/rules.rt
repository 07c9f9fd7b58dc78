// The part of the rules: the blocks of the types, by the allow records that count, and what is read off them.
ghost use Rattle.std.specs.Prelude.{◌+◌, ◌≤◌, ◌<◌, length, get_or};
ghost use Rattle.policy_image.specs.Policy.{policy_of};
ghost use Rattle.policy_image.specs.Inner.Counting.{counting};
ghost use Rattle.plan_index.specs.Inner.Counting.{is_counted};
ghost use Rattle.plan_tables.specs.Inner.Tables.{type_entries};
ghost use Rattle.plan.specs.Inner.Plan.{Ready, Prepared, SpecialOf};
ghost use Rattle.plan.specs.Inner.Put.{Lists, Tops, BlocksOf, BlocksPut, TypeSpecialPut, RulesPut};
ghost use Rattle.plan.specs.Inner.Regions.{block_entries, plan_entries};

use crate::fill::{put, put_cut};
use crate::leads::put_leads;
use crate::regions::{
    BLOCK_ENTRIES, COUNTED_START, FIRST_START, KEYS_START, READS_START, RECORD_WORDS,
    SPECIAL_START, TYPE_CODES, TYPE_SPECIAL_START, WRITES_START,
};
use plan_index::index;
use plan_tables::{TYPES, flow_masks};
use policy_image::counts::Counts;
use policy_image::kinds::{READ_LIKE, WRITE_LIKE};

// The blocks of the types: what the index has of each entry, cut to what is write-like or read-like.
fn put_blocks(
    policy: &[u8],
    counts: Counts,
    first: &[u32],
    keys: &[u32],
    writes: &[u32],
    reads: &[u32],
    plan: &mut [u32],
)
    requires { Ready policy.now counts × Lists first.now keys.now writes.now reads.now × (get_or first.now (counts.types + 1) 0 ≤ block_entries) × (plan_entries ≤ length plan.old) }
    ensures { BlocksOf (policy_of policy.now) first.now keys.now writes.now reads.now plan.old plan.new }
{
    let last = (counts.types + 1) as usize;
    let n = first[last] as usize;
    put(plan, FIRST_START, TYPES + 1, first);
    put(plan, KEYS_START, n, keys);
    let write = flow_masks(policy, WRITE_LIKE);
    put_cut(plan, WRITES_START, n, keys, writes, &write);
    let read = flow_masks(policy, READ_LIKE);
    put_cut(plan, READS_START, n, keys, reads, &read);
}

// Makes the index of the allow records that count, and puts its blocks.
fn put_index(policy: &[u8], counts: Counts, counted: &[u32; RECORD_WORDS], plan: &mut [u32])
    requires { Ready policy.now counts × (plan_entries ≤ length plan.old) }
    ensures { BlocksPut (counting (is_counted counted.now) (policy_of policy.now)) plan.old plan.new }
{
    let mut first = [0u32; TYPES + 1];
    let mut keys = [0u32; BLOCK_ENTRIES];
    let mut writes = [0u32; BLOCK_ENTRIES];
    let mut reads = [0u32; BLOCK_ENTRIES];
    index(
        policy,
        counts,
        counted,
        &mut first,
        &mut keys,
        &mut writes,
        &mut reads,
    );
    put_blocks(policy, counts, &first, &keys, &writes, &reads, plan);
}

// The special permissions of the entries from lo to below hi, united.
fn special_of(plan: &[u32], lo: usize, hi: usize) -> u32
    requires { (hi ≤ block_entries) × (plan_entries ≤ length plan.now) }
    ensures { SpecialOf plan.now lo hi result }
{
    let mut all: u32 = 0;
    for j in lo..hi {
        let class = (plan[KEYS_START + j] / TYPE_CODES % 32) as usize;
        all |= (plan[WRITES_START + j] | plan[READS_START + j]) & plan[SPECIAL_START + class];
    }
    all
}

// The same for the block of each type.
fn put_type_special(plan: &mut [u32], types: u32)
    requires { (types < type_entries) × Tops types plan.old × (plan_entries ≤ length plan.old) }
    ensures { TypeSpecialPut types plan.old plan.new }
{
    for t in 1..=types {
        let first = FIRST_START + (t as usize);
        let lo = plan[first] as usize;
        let hi = plan[first + 1] as usize;
        let all = special_of(plan, lo, hi);
        let at = TYPE_SPECIAL_START + (t as usize);
        plan[at] = all;
    }
}

// Puts the part of the rules for the allow records that count over the other two.
pub fn put_rules(policy: &[u8], counts: Counts, counted: &[u32; RECORD_WORDS], plan: &mut [u32])
    requires { Ready policy.now counts × Prepared policy.now counts plan.old × (plan_entries ≤ length plan.old) }
    ensures { RulesPut policy.now counted.now counts plan.old plan.new }
{
    put(plan, COUNTED_START, RECORD_WORDS, counted);
    put_index(policy, counts, counted, plan);
    put_type_special(plan, counts.types);
    put_leads(counts, plan);
}
