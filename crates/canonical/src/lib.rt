// The canonical image of a policy: two policies that say the same have one. It asks nothing of its caller, and its promise fixes the answer
// and every byte of the output.
#![tactic(auto)]

mod rows;

ghost use Rattle.std.specs.Prelude.{ℕ, ◌+◌, ◌≤◌, ◌≡◌, ◌++◌, length, drop};
ghost use Rattle.policy_image.specs.Policy.{policy_of};
ghost use Rattle.policy_image.specs.Inner.Sizes.{image_size};
ghost use Rattle.policy_lists.specs.Lists.{with_records};
ghost use Rattle.policy_facts.specs.Canonical.{canonical_of};
ghost use Rattle.canonical.specs.Canonical.{canonical_image, CanonicalPromise};
ghost use Rattle.canonical.specs.Inner.Parts.{KeptKinds, Canonizable};

use crate::rows::{count_keys, put_rows};
use base::refusals::Refusal;
use fact_table::make_table;
use policy_check::check;
use policy_image::counts::{Counts, MOST_RECORDS};
use policy_image::kinds::Kind;
use policy_image::sizes::image_size;
use policy_runs::tables::{CONSTRAINTS, NODES, ends_of, heads_of};
use policy_runs::{KINDS, Run, count_kinds, count_nodes, put_run};
use policy_writing::put_header;
use sorting::ITEMS;

// The number of records of each kind that stays as it is, and 0 for the kinds of facts.
fn kept_kinds(of: &[usize; KINDS]) -> [usize; KINDS]
    ensures { KeptKinds of.now result }
{
    let mut kept = [0usize; KINDS];
    kept[CONSTRAINTS] = of[CONSTRAINTS];
    kept[NODES] = of[NODES];
    kept
}

// The counts with another number of records.
fn with_records(c: Counts, records: usize) -> Counts
    ensures { result ≡ with_records records c }
{
    Counts { records, ..c }
}

// Writes the canonical image: the header, the facts, then constraints and nodes as they stand, renumbered.
fn write(
    output: &mut [u8],
    policy: &[u8],
    counts: Counts,
    keys: &[u32],
    masks: &[u32],
    facts: usize,
)
    requires { Canonizable policy.now counts keys.now masks.now facts (length output.old) }
    ensures { output.new ≡ canonical_image policy.now ++ drop (image_size (canonical_of (policy_of policy.now)).size) output.old }
{
    let kept = kept_kinds(&count_kinds(policy, counts.records));
    let nodes = count_nodes(policy, counts.records);
    let ends = ends_of(&count_keys(keys, facts), &kept);
    let heads = heads_of(&ends);
    put_header(output, with_records(counts, ends[NODES]), &heads);
    put_rows(output, keys, masks, facts, &ends);
    let constraints = Run {
        kind: Kind::Constraint,
        before: facts,
        last: ends[CONSTRAINTS],
        shift: ends[CONSTRAINTS],
    };
    let behind = put_run(output, policy, &nodes, constraints);
    let expressions = Run {
        kind: Kind::Node,
        before: behind,
        last: ends[NODES],
        shift: ends[CONSTRAINTS],
    };
    put_run(output, policy, &nodes, expressions);
}

// The canonical image of a policy: the output's first bytes are the image, whose length is the answer, and its later bytes are as they
// were. A refusal writes nothing.
pub fn canonical(policy: &[u8], output: &mut [u8]) -> Result<u32, Refusal>
    ensures { CanonicalPromise policy.now output.old output.new result }
{
    let counts = check(policy)?;
    let mut keys = [0u32; ITEMS];
    let mut masks = [0u32; ITEMS];
    let facts = make_table(policy, counts.records, &mut keys, &mut masks);
    let of = count_kinds(policy, counts.records);
    let records = facts + (of[CONSTRAINTS] + of[NODES]);
    if MOST_RECORDS < records {
        return Err(Refusal::TooManyRecords);
    }
    let bytes = image_size(records);
    if output.len() < bytes {
        return Err(Refusal::OutputSlice);
    }
    write(output, policy, counts, &keys, &masks, facts);
    Ok(bytes as u32)
}
