// The entries of each type, as a block.
ghost use Rattle.std.specs.Prelude.{◌&&◌, ◌≡◌, ◌≤◌, eqb, ltb, length};
ghost use Rattle.plan_index.specs.Inner.Split.{own_of, Splittable, Split};

use crate::codes::KEY_CODES;

// Whether entry j is one of the m entries and in the block of type t.
fn is_in_block(keys: &[u32], m: usize, j: usize, t: u32) -> bool
    requires { m ≤ length keys.now }
    ensures { result ≡ (ltb j m && eqb (own_of keys.now j) t) }
{
    if j < m {
        return keys[j] / KEY_CODES == t;
    }
    false
}

// Splits the m entries, whose keys are whole codes in rising order, into the blocks of the types: that of type t stands from first[t]
// to first[t + 1]. A key is then a class and a type.
pub fn split(types: usize, m: usize, first: &mut [u32], keys: &mut [u32])
    requires { Splittable types m first.old keys.old }
    ensures { Split types m keys.old first.new keys.new }
{
    let mut t: usize = 1;
    let mut j: usize = 0;
    first[t] = 0;
    while t <= types {
        if is_in_block(keys, m, j, t as u32) {
            keys[j] = keys[j] % KEY_CODES;
            j += 1;
        } else {
            t += 1;
            first[t] = j as u32;
        }
    }
}
