// The index of a policy's allow records: for each type what it may do to others and others to it.
#![tactic(auto)]

pub mod codes;
pub mod extract;
pub mod split;
pub mod unite;

ghost use Rattle.std.specs.Prelude.{◌+◌, ◌<◌, length};
ghost use Rattle.policy_image.specs.Policy.{policy_of};
ghost use Rattle.policy_image.specs.Inner.Counting.{counting};
ghost use Rattle.policy_image.specs.Inner.Reading.{Counted};
ghost use Rattle.policy_check.specs.Inner.Sound.{Sound};
ghost use Rattle.plan_index.specs.Inner.Counting.{is_counted};
ghost use Rattle.plan_index.specs.Inner.Unite.{EntryRoom};
ghost use Rattle.plan_index.specs.Inner.Meaning.{AllowIndex};

use crate::codes::{ITEMS, RECORD_NUMBERS};
use crate::extract::{RECORD_WORDS, extract};
use crate::split::split;
use crate::unite::unite;
use plan_tables::gamma_masks;
use policy_image::counts::Counts;
use sorting::sort;

// Makes the index of the image's allow records that count, as `counted` says: the items of the records, sorted by their codes, united
// to entries, and split into blocks.
pub fn index(
    policy: &[u8],
    counts: Counts,
    counted: &[u32; RECORD_WORDS],
    first: &mut [u32],
    keys: &mut [u32],
    writes: &mut [u32],
    reads: &mut [u32],
)
    requires { Sound policy.now × Counted policy.now counts × (counts.types + 1 < length first.old) × EntryRoom keys.old writes.old reads.old }
    ensures { AllowIndex (counting (is_counted counted.now) (policy_of policy.now)) first.new keys.new writes.new reads.new }
{
    let perms = gamma_masks(policy);
    let mut codes = [0u32; ITEMS];
    let mut masks = [0u32; RECORD_NUMBERS];
    let mut order = [0u16; ITEMS];
    let mut spare = [0u16; ITEMS];
    let n = extract(policy, counted, &perms, &mut codes, &mut masks);
    sort(&codes, n, &mut order, &mut spare);
    let m = unite(&codes, &masks, &order, n, keys, writes, reads);
    let types = counts.types as usize;
    split(types, m, first, keys);
}
