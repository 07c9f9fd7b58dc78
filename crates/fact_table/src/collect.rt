// The facts of a policy image, as its records state them: a code, which is the kind and the key, and the permissions given with it.
ghost use Rattle.std.specs.Prelude.{◌+◌, ◌≤◌, ◌<◌, ◌≡◌, length};
ghost use Rattle.policy_image.specs.Layout.{record_count};
ghost use Rattle.policy_image.specs.Policy.{policy_of};
ghost use Rattle.policy_image.specs.Inner.Reading.{Bytes};
ghost use Rattle.sorting.specs.Inner.Order.{items};
ghost use Rattle.policy_check.specs.Inner.Sound.{Sound};
ghost use Rattle.policy_facts.specs.Inner.FactTable.{fact_key};
ghost use Rattle.fact_table.specs.Inner.Collect.{is_fact, says_both, FactsEntered, Collected};

use policy_image::kinds::{BOTH, Kind, READ_LIKE, WRITE_LIKE};
use policy_image::records::{Record, record_at};

// Whether a record says something: it is of kinds 1 to 7, and where it carries a mask, that is not empty.
fn is_fact(r: Record) -> bool
    ensures { result ≡ is_fact r }
{
    r.kind <= Kind::RoleChange.number()
        && (r.mask != 0 || r.kind < Kind::Permissions.number() || Kind::Allow.number() < r.kind)
}

// Whether it says two things: permissions of a flow record that are write-like and read-like.
fn says_both(r: Record) -> bool
    ensures { result ≡ says_both r }
{
    r.is(Kind::Flow) && r.b == BOTH
}

// The code of a record's key, with b.
fn code_of(r: Record, b: u32) -> u32
    requires { Bytes r × (b < 256) }
    ensures { result ≡ fact_key r.kind r.a b r.c }
{
    16777216 * r.kind + (65536 * r.a + (256 * b + r.c))
}

// Writes what a record says behind the first n facts. How many there are then.
fn enter(r: Record, n: usize, codes: &mut [u32], given: &mut [u32]) -> usize
    requires { Bytes r × (n + 2 ≤ length codes.old) × (n + 2 ≤ length given.old) }
    ensures { FactsEntered r n codes.old given.old codes.new given.new result }
{
    if !is_fact(r) {
        return n;
    }
    given[n] = r.mask;
    if !says_both(r) {
        codes[n] = code_of(r, r.b);
        return n + 1;
    }
    given[n + 1] = r.mask;
    codes[n] = code_of(r, WRITE_LIKE);
    codes[n + 1] = code_of(r, READ_LIKE);
    n + 2
}

// Writes what the records say, in their order. How many facts there are.
pub fn collect(policy: &[u8], records: usize, codes: &mut [u32], given: &mut [u32]) -> usize
    requires { Sound policy.now × (records ≡ record_count policy.now) × (items ≤ length codes.old) × (items ≤ length given.old) }
    ensures { Collected (policy_of policy.now) (record_count policy.now) codes.new given.new result }
{
    let mut n: usize = 0;
    for k in 1..=records {
        n = enter(record_at(policy, k), n, codes, given);
    }
    n
}
