// Records that are linked into chains, as they stand in the bytes of an image: the heads, the nexts, and whether they rise. Both images
// have them; where they stand is the image's shape.
#![tactic(auto)]

ghost use Rattle.std.specs.Prelude.{◌≡◌, ℕ, ◌≤◌, ◌<◌, get_or};
ghost use Rattle.base.specs.Inner.Decides.{Decides};
ghost use Rattle.chains.specs.Inner.Links.{HasShape, links_in, HeadsAreRecords, NextsRising, LinksRising};

use base::bytes::u16_at;

// How many chains an image may have, counted from chain 0.
pub const MOST_CHAINS: usize = 16;

// Where an image has its heads and its records. Chains are numbered from first to below end, and the head of chain h stands at
// heads + 2 × h. There are count records of stride bytes from byte records on, and the first two bytes of a record are its next.
#[derive(Clone, Copy)]
pub struct Shape {
    pub heads: usize,
    pub first: usize,
    pub end: usize,
    pub records: usize,
    pub stride: usize,
    pub count: usize,
}

// The head of chain h.
pub fn head_at(image: &[u8], shape: Shape, h: usize) -> usize
    requires { HasShape image.now shape × (h < shape.end) }
    ensures { result ≡ (links_in image.now shape).head h }
{
    u16_at(image, shape.heads + 2 * h) as usize
}

// The number of record k's follower on its chain, 0 for none.
pub fn next_at(image: &[u8], shape: Shape, k: usize) -> usize
    requires { HasShape image.now shape × (1 ≤ k) × (k ≤ shape.count) }
    ensures { result ≡ (links_in image.now shape).next k }
{
    u16_at(image, shape.records + shape.stride * (k - 1)) as usize
}

// Whether every head is 0 or the number of a record.
fn heads_in_range(image: &[u8], shape: Shape) -> bool
    requires { HasShape image.now shape }
    ensures { Decides result (HeadsAreRecords (links_in image.now shape) shape.first shape.end) }
{
    for h in shape.first..shape.end {
        if shape.count < head_at(image, shape, h) {
            return false;
        }
    }
    true
}

// Whether every next is 0, or above its record and the number of a record.
fn nexts_rise(image: &[u8], shape: Shape) -> bool
    requires { HasShape image.now shape }
    ensures { Decides result (NextsRising (links_in image.now shape)) }
{
    for i in 1..=shape.count {
        let next = next_at(image, shape, i);
        if next != 0 && (next <= i || shape.count < next) {
            return false;
        }
    }
    true
}

// Whether the links are in range and rise.
pub fn links_rise(image: &[u8], shape: Shape) -> bool
    requires { HasShape image.now shape }
    ensures { Decides result (LinksRising (links_in image.now shape) shape.first shape.end) }
{
    heads_in_range(image, shape) && nexts_rise(image, shape)
}

// The heads, that of chain h at h.
pub fn heads(image: &[u8], shape: Shape) -> [usize; MOST_CHAINS]
    requires { HasShape image.now shape }
    ensures { (h : ℕ) → shape.first ≤ h → h < shape.end → get_or result h 0 ≡ (links_in image.now shape).head h }
{
    let mut c = [0usize; MOST_CHAINS];
    for h in shape.first..shape.end {
        c[h] = head_at(image, shape, h);
    }
    c
}
