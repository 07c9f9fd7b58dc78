// The items of a policy image's allow records: each record gives one for its source and one for its target.
ghost use Rattle.std.specs.Prelude.{◌≡◌, ◌+◌, ◌*◌, ◌≤◌, ◌<◌, length};
ghost use Rattle.policy_image.specs.Policy.{policy_of};
ghost use Rattle.policy_image.specs.Inner.Counting.{counting};
ghost use Rattle.policy_image.specs.Inner.Reading.{Bytes};
ghost use Rattle.policy_check.specs.Inner.Sound.{Sound};
ghost use Rattle.plan_tables.specs.Inner.Tables.{GammaMasks};
ghost use Rattle.plan_index.specs.Inner.Codes.{record_numbers, items};
ghost use Rattle.plan_index.specs.Inner.Counting.{is_counted};
ghost use Rattle.plan_index.specs.Inner.Items.{ItemsPut, Extracted};

use crate::codes::{RECORD_NUMBERS, item_code};
use base::bits::has_bit;
use plan_tables::CLASSES;
use policy_image::kinds::Kind;
use policy_image::records::Record;
use policy_links::records::records_of;
use relations::facts::target;

// How many words a set of record numbers has, a bit for each number.
pub const RECORD_WORDS: usize = RECORD_NUMBERS / 32;

// A word with every bit: in the set of such words every record counts.
pub const ALL_BITS: u32 = 4294967295;

// Whether record k counts.
fn is_counted(counted: &[u32; RECORD_WORDS], k: usize) -> bool
    requires { k < record_numbers }
    ensures { result ≡ is_counted counted.now k }
{
    has_bit(counted[k / 32], (k % 32) as u32)
}

// Writes the two items of an allow record, the nth that has some: that of its source, and that of its target. Both have one mask, the
// record's permissions that its class has.
fn put_items(r: Record, perms: &[u32; CLASSES], n: usize, codes: &mut [u32], masks: &mut [u32])
    requires { Bytes r × (r.c < 32) × (2 * n + 1 < length codes.old) × (n < length masks.old) }
    ensures { ItemsPut perms.now r n codes.old masks.old codes.new masks.new }
{
    let to = target(r);
    let class = r.c as usize;
    masks[n] = r.mask & perms[class];
    let at = 2 * n;
    codes[at] = item_code(r.a, r.c, to);
    codes[at + 1] = item_code(to, r.c, r.a);
}

// Writes the items of each allow record that counts, as `counted` says. Its source is a domain, by question 14. How many there are.
pub fn extract(
    policy: &[u8],
    counted: &[u32; RECORD_WORDS],
    perms: &[u32; CLASSES],
    codes: &mut [u32],
    masks: &mut [u32],
) -> usize
    requires { Sound policy.now × GammaMasks (policy_of policy.now) perms.now × (items ≤ length codes.old) × (record_numbers ≤ length masks.old) }
    ensures { Extracted (counting (is_counted counted.now) (policy_of policy.now)) codes.new masks.new result }
{
    let mut n: usize = 0;
    for (i, r) in records_of(policy, Kind::Allow).numbered() {
        if is_counted(counted, i) {
            put_items(r, perms, n, codes, masks);
            n += 1;
        }
    }
    2 * n
}
