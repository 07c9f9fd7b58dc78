// Writes the parts of a policy image into a lent slice: counts, heads and records, each where it stands in an image.
#![tactic(auto)]

pub mod answer;

ghost use Rattle.std.specs.Prelude.{◌≡◌, ◌+◌, ◌≤◌, ◌<◌, length, get_or};
ghost use Rattle.base.specs.Bytes.{byte_at};
ghost use Rattle.base.specs.Ranges.{Within};
ghost use Rattle.base.specs.Inner.Fill.{Filled};
ghost use Rattle.base.specs.Writing.{low16, low32};
ghost use Rattle.policy_image.specs.Inner.Reading.{Bytes};
ghost use Rattle.policy_image.specs.Encoding.{count_bytes, header_bytes, record_bytes};
ghost use Rattle.policy_image.specs.Inner.Sizes.{header_size, stride, start_of, most_records};
ghost use Rattle.policy_image.specs.Inner.Writable.{head_start, WritableCounts, WritableHeads, WritableRecord};

use policy_image::counts::Counts;
use policy_image::records::Record;
use policy_image::sizes::record_start;

// Writes the two low bytes of n, low byte first.
fn put_u16(out: &mut [u8], at: usize, n: u32)
    requires { at + 2 ≤ length out.old }
    ensures { Filled (λ j v. v ≡ byte_at (low16 n) j) out.old out.new at 0 2 }
{
    out[at] = (n % 256) as u8;
    out[at + 1] = (n / 256 % 256) as u8;
}

// Writes the four bytes of n, low byte first.
fn put_u32(out: &mut [u8], at: usize, n: u32)
    requires { at + 4 ≤ length out.old }
    ensures { Filled (λ j v. v ≡ byte_at (low32 n) j) out.old out.new at 0 4 }
{
    let high = n / 65536;
    out[at] = (n % 256) as u8;
    out[at + 1] = (n / 256 % 256) as u8;
    out[at + 2] = (high % 256) as u8;
    out[at + 3] = (high / 256 % 256) as u8;
}

// Writes T, R, U, C and N.
pub fn put_counts(out: &mut [u8], c: Counts)
    requires { (6 ≤ length out.old) × WritableCounts c }
    ensures { Filled (λ j v. v ≡ byte_at (count_bytes c) j) out.old out.new 0 0 6 }
{
    out[0] = c.types as u8;
    out[1] = c.roles as u8;
    out[2] = c.users as u8;
    out[3] = c.classes as u8;
    put_u16(out, 4, c.records as u32);
}

// Writes the head of the chain of kind k.
pub fn put_head(out: &mut [u8], k: usize, head: usize)
    requires { (head_start k + 2 ≤ length out.old) × Within 1 9 k × (head < 65536) }
    ensures { Filled (λ j v. v ≡ byte_at (low16 head) j) out.old out.new (head_start k) 0 2 }
{
    put_u16(out, 4 + 2 * k, head as u32);
}

// Writes the header: the counts, and for each kind k from 1 to 9 its head, heads[k].
pub fn put_header(out: &mut [u8], c: Counts, heads: &[usize; 10])
    requires { (header_size ≤ length out.old) × WritableCounts c × WritableHeads (λ k. get_or heads.now k 0) }
    ensures { Filled (λ j v. v ≡ byte_at (header_bytes c (λ k. get_or heads.now k 0)) j) out.old out.new 0 0 header_size }
{
    put_counts(out, c);
    for k in 1..=9 {
        put_head(out, k, heads[k]);
    }
}

// Writes the fields of a record that are single bytes, which stand after its next.
fn put_fields(out: &mut [u8], at: usize, r: Record)
    requires { (at + 6 ≤ length out.old) × Bytes r }
    ensures { Filled (λ j v. v ≡ byte_at (record_bytes r) (2 + j)) out.old out.new at 0 6 }
{
    out[at] = r.kind as u8;
    out[at + 1] = r.a as u8;
    out[at + 2] = r.b as u8;
    out[at + 3] = r.c as u8;
    out[at + 4] = r.d as u8;
    out[at + 5] = r.e as u8;
}

// Writes record k.
pub fn put_record(out: &mut [u8], k: usize, r: Record)
    requires { Within 1 most_records k × (start_of k + stride ≤ length out.old) × WritableRecord r }
    ensures { Filled (λ j v. v ≡ byte_at (record_bytes r) j) out.old out.new (start_of k) 0 stride }
{
    let at = record_start(k);
    put_u16(out, at, r.next as u32);
    put_fields(out, at + 2, r);
    put_u32(out, at + 8, r.mask);
}
