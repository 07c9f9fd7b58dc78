// One pass over the records of a kind, each of which adds bits to an entry of a table.
ghost use Rattle.std.specs.Prelude.{◌||◌, ◌≡◌, ℕ, length};
ghost use Rattle.base.specs.Bits.{bit};
ghost use Rattle.policy_image.specs.Policy.{policy_of};
ghost use Rattle.policy_check.specs.Inner.Sound.{Sound};
ghost use Rattle.plan_tables.specs.Inner.Gather.{entry_of, adds_of, Shifts, Room, Gathered};

use policy_image::kinds::{BOTH, Kind};
use policy_image::records::Record;
use policy_links::records::records_of;

// The entry to which a record of the kind adds.
fn entry(r: Record, kind: Kind) -> usize
    ensures { result ≡ entry_of kind r }
{
    match kind {
        Kind::RoleType => r.b as usize,
        _ => r.a as usize,
    }
}

// The permissions that a flow record gives the way; 3 is both ways.
fn flow_mask(r: Record, way: u32) -> u32
    ensures { result ≡ adds_of way Kind.Flow r }
{
    if r.b == way || r.b == BOTH { r.mask } else { 0 }
}

// The bits that a record of the kind adds.
fn adds(r: Record, kind: Kind, way: u32) -> u32
    requires { Shifts kind r }
    ensures { result ≡ adds_of way kind r }
{
    match kind {
        Kind::Permissions | Kind::Constraint => r.mask,
        Kind::Flow => flow_mask(r, way),
        Kind::RoleType => 1 << r.a,
        Kind::UserRole | Kind::RoleChange => 1 << r.b,
        Kind::Domain | Kind::Allow | Kind::Node => 0,
    }
}

// The union of two sets.
fn join(x: u32, y: u32) -> u32
    ensures { (q : ℕ) → bit result q ≡ (bit x q || bit y q) }
{
    x | y
}

// Adds to each entry the bits of the kind's records; of flow records, of those that flow the way.
pub fn gather(policy: &[u8], kind: Kind, way: u32, table: &mut [u32])
    requires { Sound policy.now × Room (policy_of policy.now) kind (length table.old) }
    ensures { Gathered (policy_of policy.now) kind way table.old table.new }
{
    for r in records_of(policy, kind) {
        let t = entry(r, kind);
        table[t] = join(table[t], adds(r, kind, way));
    }
}
