// The heads and the records of a policy image.
ghost use Rattle.std.specs.Prelude.{◌≡◌, ◌≤◌, length};
ghost use Rattle.base.specs.Inner.Decides.{Decides};
ghost use Rattle.policy_image.specs.Inner.Kinds.{kind_number};
ghost use Rattle.chains.specs.Inner.Links.{ShapeOf};
ghost use Rattle.policy_image.specs.Layout.{PolicyExact, record_count, payload_of, decoded, policy_head};
ghost use Rattle.policy_image.specs.Policy.{policy_of, policy_links};
ghost use Rattle.policy_image.specs.Inner.Reading.{Bytes, Reads};

use crate::counts::{HEADER, MOST_RECORDS, RECORD};
use crate::kinds::Kind;
use base::bytes::{u16_at, u32_at};
use chains::Shape;

// A record, decoded. The bytes of the mask are also the numbers of an expression node's children.
#[derive(Clone, Copy)]
pub struct Record {
    pub next: usize,
    pub kind: u32,
    pub a: u32,
    pub b: u32,
    pub c: u32,
    pub d: u32,
    pub e: u32,
    pub mask: u32,
}

impl Record {
    // Whether the record is of the kind. Its number is any byte, until question 4 has been answered.
    #[inline]
    pub fn is(self, kind: Kind) -> bool
        ensures { Decides result (self.kind ≡ kind_number kind) }
    {
        self.kind == kind.number()
    }
}

// The rest of record k after its link, as a part of the image itself; the empty part where there is no such record.
pub fn payload(image: &[u8], k: usize) -> &[u8]
    ensures { result.now ≡ payload_of image.now k }
{
    if k < 1 {
        return &image[..0];
    }
    if MOST_RECORDS < k {
        return &image[..0];
    }
    let at = HEADER + RECORD * (k - 1) + 2;
    let end = at + 10;
    if image.len() < end {
        return &image[..0];
    }
    &image[at..end]
}

// Where the heads, for kinds 1 to 9, and the records stand.
pub fn policy_shape(image: &[u8]) -> Shape
    requires { PolicyExact image.now }
    ensures { ShapeOf image.now (policy_links (policy_of image.now)) 1 10 result }
{
    Shape {
        heads: 4,
        first: 1,
        end: 10,
        records: HEADER,
        stride: RECORD,
        count: u16_at(image, 4) as usize,
    }
}

// The record whose link is next and whose other bytes are p.
fn decode(next: usize, p: &[u8]) -> Record
    requires { length p.now ≡ 10 }
    ensures { (result ≡ decoded next p.now) × Bytes result }
{
    Record {
        next,
        kind: u32::from(p[0]),
        a: u32::from(p[1]),
        b: u32::from(p[2]),
        c: u32::from(p[3]),
        d: u32::from(p[4]),
        e: u32::from(p[5]),
        mask: u32_at(p, 6),
    }
}

// Record k.
pub fn record_at(image: &[u8], k: usize) -> Record
    requires { PolicyExact image.now × (1 ≤ k) × (k ≤ record_count image.now) }
    ensures { Reads image.now k result }
{
    let next = chains::next_at(image, policy_shape(image), k);
    decode(next, payload(image, k))
}

// The head of the chain of a kind.
pub fn head_at(image: &[u8], kind: Kind) -> usize
    requires { PolicyExact image.now }
    ensures { result ≡ policy_head image.now (kind_number kind) }
{
    chains::head_at(image, policy_shape(image), kind.number() as usize)
}
