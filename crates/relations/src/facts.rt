// Loops over the records of one kind: whether some record states a fact, and the union of the masks of those that do.
ghost use Rattle.std.specs.Prelude.{◌≡◌};
ghost use Rattle.policy_image.specs.Inner.Kinds.{kind_number};
ghost use Rattle.policy_image.specs.Policy.{policy_of};
ghost use Rattle.policy_image.specs.OfKind.{some};
ghost use Rattle.policy_check.specs.Inner.Sound.{Sound};
ghost use Rattle.relations.specs.Relations.{target_of};
ghost use Rattle.relations.specs.Inner.Facts.{stated_as, states, United};

use policy_image::kinds::{BOTH, Kind};
use policy_image::records::Record;
use policy_links::records::records_of;

// What a record of the kind may state: its fields a, b and c, as far as the kind names them.
#[derive(Clone, Copy)]
pub struct Fact {
    pub kind: Kind,
    pub a: u32,
    pub b: u32,
    pub c: u32,
}

// The target type of an allow record, which is its source type where b is 0.
pub fn target(r: Record) -> u32
    ensures { result ≡ target_of r }
{
    if r.b == 0 { r.a } else { r.b }
}

// Whether a flow record is of the fact's class and way; 3 is both ways.
fn has_way(r: Record, f: Fact) -> bool
    ensures { result ≡ stated_as f Kind.Flow r }
{
    (r.a == f.a) & ((r.b == f.b) | (r.b == BOTH))
}

// Whether an allow record is of the fact's source, target and class.
fn allows(r: Record, f: Fact) -> bool
    ensures { result ≡ stated_as f Kind.Allow r }
{
    (r.a == f.a) & ((target(r) == f.b) & (r.c == f.c))
}

// Whether a record holds the fact's pair.
fn has_pair(r: Record, f: Fact) -> bool
    ensures { result ≡ stated_as f Kind.RoleType r }
{
    (r.a == f.a) & (r.b == f.b)
}

// Whether a record states the fact, its mask aside.
fn is_stated(r: Record, f: Fact) -> bool
    ensures { result ≡ states f r }
{
    match f.kind {
        Kind::Domain | Kind::Permissions => r.a == f.a,
        Kind::Flow => has_way(r, f),
        Kind::Allow => allows(r, f),
        Kind::RoleType | Kind::UserRole | Kind::RoleChange => has_pair(r, f),
        Kind::Constraint | Kind::Node => false,
    }
}

// Whether some record of the fact's kind states it.
pub fn is_given(policy: &[u8], f: Fact) -> bool
    requires { Sound policy.now }
    ensures { result ≡ some (policy_of policy.now) (kind_number f.kind) (states f) }
{
    records_of(policy, f.kind).any(|r| is_stated(r, f))
}

// The union of the masks of the records of the fact's kind that state it.
pub fn united(policy: &[u8], f: Fact) -> u32
    requires { Sound policy.now }
    ensures { United (policy_of policy.now) f result }
{
    let mut mask = 0;
    for r in records_of(policy, f.kind) {
        if is_stated(r, f) {
            mask |= r.mask;
        }
    }
    mask
}
