// Bits of a mask, and single bits of a set of 64.
ghost use Rattle.std.specs.Prelude.{◌≡◌, ◌<◌};
ghost use Rattle.base.specs.Bits.{bit};
ghost use Rattle.base.specs.Inner.Masks.{Lowest, NextBit, With, Without};
ghost use Rattle.std.specs.Iterator.{at_most};

// Whether bit p of the mask is set.
pub fn has_bit(mask: u32, p: u32) -> bool
    requires { p < 32 }
    ensures { result ≡ bit mask p }
{
    (mask >> p) & 1 == 1
}

// The least bit of a mask that has one.
pub fn lowest(m: u32) -> u32
    requires { 0 < m }
    ensures { Lowest m result }
{
    u32::trailing_zeros(m)
}

// Whether number k is in the set.
pub fn has_member(set: u64, k: u32) -> bool
    requires { k < 64 }
    ensures { result ≡ bit set k }
{
    (set >> k) & 1 == 1
}

// The mask with bit p.
pub fn with_bit(mask: u32, p: u32) -> u32
    requires { p < 32 }
    ensures { With mask p result }
{
    mask | (1 << p)
}

// The bits of a that are not in b.
pub fn without(a: u32, b: u32) -> u32
    ensures { Without a b result }
{
    a & (a ^ b)
}

// The bits that a mask has, the least first.
#[derive(Drop)]
pub struct Bits {
    pub left: u32,
}

pub fn bits_of(mask: u32) -> Bits
    ensures { result.left ≡ mask }
{
    Bits { left: mask }
}

impl Iterator for Bits {
    type Item = u32;

    ghost next_gives = { λ s r t. NextBit s.left r t.left };

    ghost remaining = { λ s. at_most s.left };

    #[inline]
    fn next(&mut self) -> Option<u32> {
        if self.left == 0 {
            return None;
        }
        let p = lowest(self.left);
        self.left = without(self.left, with_bit(0, p));
        Some(p)
    }
}
