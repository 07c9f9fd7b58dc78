// The rows of a table of facts, written as records.
ghost use Rattle.std.specs.Prelude.{◌≤◌, ◌≡◌, length};
ghost use Rattle.base.specs.Bytes.{byte_at};
ghost use Rattle.base.specs.Inner.Fill.{Filled};
ghost use Rattle.policy_image.specs.Inner.Sizes.{header_size, size_of, most_records};
ghost use Rattle.policy_facts.specs.Inner.FactTable.{kind_in, table_record};
ghost use Rattle.canonical.specs.Inner.Rows.{FactKinds, KeyCounts, fact_row, row_bytes, RowsFit};

use policy_image::records::Record;
use policy_runs::{KINDS, next_upto, with_next};
use policy_writing::put_record;

// The kind in a key.
fn kind_in(key: u32) -> usize
    ensures { result ≡ kind_in key }
{
    (key / 16777216) as usize
}

// The record of a key and a mask.
fn record_of(key: u32, mask: u32) -> Record
    ensures { result ≡ table_record key mask }
{
    let number = key % 16777216;
    Record {
        next: 0,
        kind: key / 16777216,
        a: number / 65536,
        b: number / 256 % 256,
        c: number % 256,
        d: 0,
        e: 0,
        mask,
    }
}

// How many of the first m keys there are of each kind.
pub fn count_keys(keys: &[u32], m: usize) -> [usize; KINDS]
    requires { (m ≤ length keys.now) × (m ≤ most_records) × FactKinds keys.now m }
    ensures { KeyCounts keys.now m result }
{
    let mut table = [0usize; KINDS];
    for key in &keys[..m] {
        table[kind_in(*key)] += 1;
    }
    table
}

// Writes the first m rows, each linked to the next of its kind.
pub fn put_rows(output: &mut [u8], keys: &[u32], masks: &[u32], m: usize, ends: &[usize; KINDS])
    requires { RowsFit keys.now masks.now ends.now m (length output.old) }
    ensures { Filled (λ j v. v ≡ byte_at (row_bytes (fact_row keys.now masks.now ends.now) m) j) output.old output.new header_size 0 (size_of m) }
{
    for i in 0..m {
        let key = keys[i];
        let row = record_of(key, masks[i]);
        let last = ends[kind_in(key)];
        put_record(output, i + 1, with_next(row, next_upto(last, i + 1)));
    }
}
