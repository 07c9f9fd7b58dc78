// Facts with the same key become one entry, whose mask has the permissions of all.
ghost use Rattle.std.specs.Prelude.{◌≤◌, length};
ghost use Rattle.sorting.specs.Inner.Order.{items, Ordered};
ghost use Rattle.sorting.specs.Inner.Entries.{code_in};
ghost use Rattle.fact_table.specs.Inner.Unite.{UnitedFacts};

use sorting::ITEMS;
use sorting::entries::{entry_for, mask_of};

// Makes an entry for each code of the facts, rising. How many there are.
pub fn unite(
    codes: &[u32; ITEMS],
    given: &[u32; ITEMS],
    order: &[u16; ITEMS],
    n: usize,
    keys: &mut [u32],
    masks: &mut [u32],
) -> usize
    requires { (n ≤ items) × Ordered codes.now n order.now × (items ≤ length keys.old) × (items ≤ length masks.old) }
    ensures { UnitedFacts (code_in codes.now) (code_in given.now) n keys.new masks.new result }
{
    let mut m: usize = 0;
    for i in 0..n {
        let item = order[i] as usize;
        let code = codes[item];
        let at = entry_for(&keys[..m], code);
        let united = mask_of(&masks[..m], at);
        keys[at] = code;
        masks[at] = united | given[item];
        m = at + 1;
    }
    m
}
