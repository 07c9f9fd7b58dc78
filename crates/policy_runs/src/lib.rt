// Runs: the records of one kind of one policy are written one behind the other, with node numbers adjusted.
#![tactic(auto)]

pub mod tables;

ghost use Rattle.std.specs.Prelude.{ℕ, suc, ◌+◌, ◌≤◌, ◌<◌, ◌≡◌, length, get_or};
ghost use Rattle.base.specs.Bytes.{byte_at};
ghost use Rattle.base.specs.Inner.Fill.{Filled};
ghost use Rattle.policy_image.specs.Inner.Kinds.{kind_number};
ghost use Rattle.policy_image.specs.Layout.{PolicyExact, record_count};
ghost use Rattle.policy_image.specs.Policy.{policy_of};
ghost use Rattle.policy_image.specs.Inner.Reading.{Bytes};
ghost use Rattle.policy_image.specs.Inner.Sizes.{size_of, start_of};
ghost use Rattle.policy_links.specs.Chains.{ChainsByKind};
ghost use Rattle.policy_lists.specs.Lists.{kind_list, with_next};
ghost use Rattle.policy_lists.specs.Joined.{with_root, with_children, renumbered};
ghost use Rattle.policy_lists.specs.Inner.Places.{next_upto};
ghost use Rattle.policy_runs.specs.Inner.Runs.{KindTable, NodeTable, run_bytes, RunFits, Movable, MovableNode};

use policy_image::counts::MOST_RECORDS;
use policy_image::kinds::{AND, Kind, NOT, OR};
use policy_image::records::{Record, record_at};
use policy_links::records::records_of;
use policy_writing::put_record;

// How many entries a table by kinds has, and one by record numbers: one more than the largest number, for entry 0.
pub const KINDS: usize = 10;

pub const NUMBERS: usize = MOST_RECORDS + 1;

// Where a run stands in the result: how many records stand before it, the number of the last record of its kind, and what is added to the
// count of nodes up to one to give that node's number.
#[derive(Clone, Copy)]
pub struct Run {
    pub kind: Kind,
    pub before: usize,
    pub last: usize,
    pub shift: usize,
}

// How many records of each kind there are.
pub fn count_kinds(policy: &[u8], records: usize) -> [usize; KINDS]
    requires { PolicyExact policy.now × ChainsByKind (policy_of policy.now) × (records ≡ record_count policy.now) }
    ensures { KindTable (policy_of policy.now) result }
{
    let mut table = [0usize; KINDS];
    for k in 1..=records {
        table[record_at(policy, k).kind as usize] += 1;
    }
    table
}

// For each record number, how many nodes there are up to it.
pub fn count_nodes(policy: &[u8], records: usize) -> [u16; NUMBERS]
    requires { PolicyExact policy.now × (records ≡ record_count policy.now) }
    ensures { NodeTable (policy_of policy.now) result }
{
    let mut table = [0u16; NUMBERS];
    let mut nodes: u16 = 0;
    for k in 1..=records {
        if record_at(policy, k).is(Kind::Node) {
            nodes += 1;
        }
        table[k] = nodes;
    }
    table
}

// The record with a next.
pub fn with_next(r: Record, next: usize) -> Record
    ensures { result ≡ with_next next r }
{
    Record { next, ..r }
}

// The record with a root.
fn with_root(r: Record, root: usize) -> Record
    requires { root < 65536 }
    ensures { result ≡ with_root root r }
{
    Record {
        d: (root % 256) as u32,
        e: (root / 256) as u32,
        ..r
    }
}

// The record with a left and a right.
fn with_children(r: Record, left: usize, right: usize) -> Record
    requires { (left < 65536) × (right < 65536) }
    ensures { result ≡ with_children left right r }
{
    Record {
        mask: (left as u32) + 65536 * (right as u32),
        ..r
    }
}

// The number of node n in the result: its entry of the table, and the shift.
fn moved(n: usize, nodes: &[u16; NUMBERS], shift: usize) -> usize
    requires { MovableNode nodes.now shift n }
    ensures { (result ≡ shift + get_or nodes.now n 0) × (result < 65536) }
{
    shift + (nodes[n] as usize)
}

// The record with the nodes that it uses renumbered.
fn renumber(r: Record, nodes: &[u16; NUMBERS], shift: usize) -> Record
    requires { Movable r nodes.now shift }
    ensures { result ≡ renumbered (λ n. shift + get_or nodes.now n 0) r }
{
    if r.is(Kind::Constraint) {
        return with_root(r, moved((r.d + 256 * r.e) as usize, nodes, shift));
    }
    if !r.is(Kind::Node) {
        return r;
    }
    match r.a {
        NOT => with_children(
            r,
            moved((r.mask % 65536) as usize, nodes, shift),
            (r.mask / 65536) as usize,
        ),
        AND..=OR => with_children(
            r,
            moved((r.mask % 65536) as usize, nodes, shift),
            moved((r.mask / 65536) as usize, nodes, shift),
        ),
        _ => r,
    }
}

// The number behind i where it is at most the last, else 0.
pub fn next_upto(last: usize, i: usize) -> usize
    requires { i < 65536 }
    ensures { result ≡ next_upto last i }
{
    if i + 1 <= last { i + 1 } else { 0 }
}

// Writes a run, along the chain of its kind, and gives the number of its last record, or that of the record before it where it has none.
pub fn put_run(output: &mut [u8], policy: &[u8], nodes: &[u16; NUMBERS], run: Run) -> usize
    requires { RunFits policy.now nodes.now run (length output.old) }
    ensures { (result ≡ run.before + length (kind_list (policy_of policy.now) (kind_number run.kind))) × Filled (λ j v. v ≡ byte_at (run_bytes (policy_of policy.now) run (record_count policy.now)) j) output.old output.new (start_of (suc run.before)) 0 (size_of (length (kind_list (policy_of policy.now) (kind_number run.kind)))) }
{
    let mut at = run.before;
    for r in records_of(policy, run.kind) {
        at += 1;
        let moved = renumber(r, nodes, run.shift);
        put_record(output, at, with_next(moved, next_upto(run.last, at)));
    }
    at
}
