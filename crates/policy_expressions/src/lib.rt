// Question 6: the nodes that constraints and expression nodes use.
#![tactic(auto)]

ghost use Rattle.std.specs.Prelude.{◌≡◌, ◌<◌};
ghost use Rattle.base.specs.Inner.Decides.{Decides};
ghost use Rattle.policy_image.specs.Policy.{policy_of};
ghost use Rattle.policy_image.specs.Inner.Reading.{Counted};
ghost use Rattle.policy_expressions.specs.Nodes.{use_of, UsedWell, NodesInOrder};

use policy_image::counts::Counts;
use policy_image::kinds::{AND, Kind, NOT, OR};
use policy_image::records::{Record, record_at};

// The node that a record uses at place 0, if any: a constraint its root, an expression node its left.
fn first_use(r: Record) -> Option<usize>
    requires { (r.d < 256) × (r.e < 256) }
    ensures { result ≡ use_of r 0 }
{
    match Kind::of(r.kind) {
        Some(Kind::Constraint) => Some((r.d + 256 * r.e) as usize),
        Some(Kind::Node) => match r.a {
            NOT..=OR => Some((r.mask % 65536) as usize),
            _ => None,
        },
        _ => None,
    }
}

// The node that a record uses at place 1, if any: an expression node its right.
fn second_use(r: Record) -> Option<usize>
    ensures { result ≡ use_of r 1 }
{
    match Kind::of(r.kind) {
        Some(Kind::Node) => match r.a {
            AND..=OR => Some((r.mask / 65536) as usize),
            _ => None,
        },
        _ => None,
    }
}

// The node that a record uses at place s, if any.
fn use_at(r: Record, s: usize) -> Option<usize>
    requires { (r.d < 256) × (r.e < 256) × (s < 2) }
    ensures { result ≡ use_of r s }
{
    if s == 0 { first_use(r) } else { second_use(r) }
}

// Whether what record i, of the given kind, uses at m is a node, and below i where record i is a node itself.
fn used_well(image: &[u8], counts: Counts, i: usize, kind: u32, m: usize) -> bool
    requires { Counted image.now counts }
    ensures { Decides result (UsedWell (policy_of image.now) i kind m) }
{
    1 <= m
        && m <= counts.records
        && record_at(image, m).is(Kind::Node)
        && (kind != Kind::Node.number() || m < i)
}

// Question 6. The places of record i are numbered 2 * i and 2 * i + 1; used[m] is 1 where an earlier place uses node m.
pub fn nodes_in_order(image: &[u8], counts: Counts) -> bool
    requires { Counted image.now counts }
    ensures { Decides result (NodesInOrder (policy_of image.now)) }
{
    let n = counts.records;
    let mut used = [0u8; 4096];
    for q in 2..2 * n + 2 {
        let i = q / 2;
        let r = record_at(image, i);
        if let Some(m) = use_at(r, q % 2) {
            if !used_well(image, counts, i, r.kind, m) {
                return false;
            }
            if used[m] != 0 {
                return false;
            }
            used[m] = 1;
        }
    }
    true
}
