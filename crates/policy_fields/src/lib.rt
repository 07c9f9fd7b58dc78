// Question 5: the range of each field of a record, by its kind.
#![tactic(auto)]

ghost use Rattle.std.specs.Prelude.{◌≡◌, get_or};
ghost use Rattle.base.specs.Inner.Decides.{Decides};
ghost use Rattle.policy_image.specs.Policy.{policy_of};
ghost use Rattle.policy_image.specs.Inner.Reading.{Counted};
ghost use Rattle.policy_fields.specs.Fields.{limits, range, node_limits, limits_of, none, WithinLimits, FieldsInRange};

use base::ranges::within;
use policy_image::counts::Counts;
use policy_image::kinds::{
    AND, Kind, NOT, OR, ROLE_1, ROLE_2, SAME_TYPE, SAME_USER, TYPE_1, TYPE_2, USER_1, USER_2,
};
use policy_image::records::{Record, record_at};

// The numbers from low to high.
#[derive(Clone, Copy)]
pub struct Range {
    pub low: u32,
    pub high: u32,
}

// The range of each field of a record.
#[derive(Clone, Copy)]
pub struct Limits {
    pub a: Range,
    pub b: Range,
    pub c: Range,
    pub d: Range,
    pub e: Range,
    pub mask: Range,
}

// Field a from 1 to top, b from low to high, the mask up to most, and every other field 0.
fn plain(top: u32, low: u32, high: u32, most: u32) -> Limits
    ensures { result ≡ limits (range 1 top) (range low high) (range 0 0) (range 0 0) (range 0 0) (range 0 most) }
{
    Limits {
        a: Range { low: 1, high: top },
        b: Range { low, high },
        c: Range { low: 0, high: 0 },
        d: Range { low: 0, high: 0 },
        e: Range { low: 0, high: 0 },
        mask: Range { low: 0, high: most },
    }
}

// The limits of an expression node, by its operator.
fn node_limits(n: Counts, op: u32) -> Limits
    ensures { result ≡ get_or (node_limits n) op none }
{
    match op {
        NOT => plain(12, 0, 0, 65535),
        AND..=OR => plain(12, 0, 0, 4294967295),
        SAME_TYPE..=SAME_USER => plain(12, 0, 0, 0),
        TYPE_1..=TYPE_2 => plain(12, 1, n.types, 0),
        ROLE_1..=ROLE_2 => plain(12, 1, n.roles, 0),
        USER_1..=USER_2 => plain(12, 1, n.users, 0),
        _ => plain(0, 0, 0, 0),
    }
}

// The limits of an allow record: its target may be 0, for self.
fn allow_limits(n: Counts) -> Limits
    ensures { result ≡ limits_of n 4 0 }
{
    Limits {
        c: Range {
            low: 1,
            high: n.classes,
        },
        ..plain(n.types, 0, n.types, 4294967295)
    }
}

// The limits of a constraint: d and e are its root, which question 6 judges.
fn constraint_limits(n: Counts) -> Limits
    ensures { result ≡ limits_of n 8 0 }
{
    let byte = Range { low: 0, high: 255 };
    Limits {
        d: byte,
        e: byte,
        ..plain(n.classes, 0, 0, 4294967295)
    }
}

// The limits of a record, by its kind; op is its field a.
fn kind_limits(n: Counts, kind: u32, op: u32) -> Limits
    ensures { result ≡ limits_of n kind op }
{
    let Some(kind) = Kind::of(kind) else {
        return plain(0, 0, 0, 0);
    };
    match kind {
        Kind::Domain => plain(n.types, 0, 0, 0),
        Kind::Permissions => plain(n.classes, 0, 0, 4294967295),
        Kind::Flow => plain(n.classes, 1, 3, 4294967295),
        Kind::Allow => allow_limits(n),
        Kind::RoleType => plain(n.roles, 1, n.types, 0),
        Kind::UserRole => plain(n.users, 1, n.roles, 0),
        Kind::RoleChange => plain(n.roles, 1, n.roles, 0),
        Kind::Constraint => constraint_limits(n),
        Kind::Node => node_limits(n, op),
    }
}

// Whether every field of r lies within its range.
fn record_in_range(l: Limits, r: Record) -> bool
    ensures { Decides result (WithinLimits l r) }
{
    within(l.a.low, l.a.high, r.a)
        && within(l.b.low, l.b.high, r.b)
        && within(l.c.low, l.c.high, r.c)
        && within(l.d.low, l.d.high, r.d)
        && within(l.e.low, l.e.high, r.e)
        && within(l.mask.low, l.mask.high, r.mask)
}

// Question 5.
pub fn fields_in_range(image: &[u8], counts: Counts) -> bool
    requires { Counted image.now counts }
    ensures { Decides result (FieldsInRange (policy_of image.now)) }
{
    let n = counts.records;
    for i in 1..=n {
        let r = record_at(image, i);
        if !record_in_range(kind_limits(counts, r.kind, r.a), r) {
            return false;
        }
    }
    true
}
