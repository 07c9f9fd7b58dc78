// Filling a region of a plan; the others stay as they were.
ghost use Rattle.std.specs.Prelude.{◌≡◌, ◌+◌, ◌/◌, ◌%◌, ◌≤◌, length, get_or};
ghost use Rattle.std.specs.Int.Bits.{bit_and};
ghost use Rattle.base.specs.Inner.Fill.{Filled};
ghost use Rattle.plan.specs.Inner.Regions.{type_codes};

use crate::regions::TYPE_CODES;

// Copies the first n entries of a table to the region at a place. By hand: of a `for` and of `copy_from_slice` the compiler makes
// a call of memmove where this is inlined, and the archive needs no more of C than memcpy and memset.
pub fn put(plan: &mut [u32], at: usize, n: usize, table: &[u32])
    requires { (at + n ≤ length plan.old) × (n ≤ length table.now) }
    ensures { Filled (λ i v. v ≡ get_or table.now i 0) plan.old plan.new at 0 n }
{
    let mut i: usize = 0;
    while i < n {
        plan[at + i] = table[i];
        i += 1;
    }
}

// Clears the n entries from a place on.
pub fn clear(plan: &mut [u32], at: usize, n: usize)
    requires { at + n ≤ length plan.old }
    ensures { Filled (λ _ v. v ≡ 0) plan.old plan.new at 0 n }
{
    plan[at..at + n].fill(0);
}

// Copies the first n masks of an index, each cut to the permissions that `cut` has for the class of its key.
pub fn put_cut(plan: &mut [u32], at: usize, n: usize, keys: &[u32], masks: &[u32], cut: &[u32; 32])
    requires { (at + n ≤ length plan.old) × (n ≤ length keys.now) × (n ≤ length masks.now) }
    ensures { Filled (λ i v. v ≡ bit_and (get_or masks.now i 0) (get_or cut.now (get_or keys.now i 0 / type_codes % 32) 0)) plan.old plan.new at 0 n }
{
    for i in 0..n {
        let class = (keys[i] / TYPE_CODES % 32) as usize;
        plan[at + i] = masks[i] & cut[class];
    }
}
