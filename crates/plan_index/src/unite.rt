// Items with the same code become one entry.
ghost use Rattle.std.specs.Prelude.{cond, ◌≡◌, ◌≤◌, ◌%◌, eqb};
ghost use Rattle.sorting.specs.Inner.Order.{Ordered};
ghost use Rattle.plan_index.specs.Inner.Codes.{items};
ghost use Rattle.plan_index.specs.Inner.Items.{code_in, side_mask};
ghost use Rattle.plan_index.specs.Inner.Unite.{EntryRoom, UnitedItems};

use crate::codes::{ITEMS, RECORD_NUMBERS};
use sorting::entries::{entry_for, mask_of};

// The sides of items: those of sources are even, those of targets odd.
const SOURCES: usize = 0;

const TARGETS: usize = 1;

// The mask of an item, where it is of the side, and else none.
fn on_side(mask: u32, item: usize, side: usize) -> u32
    ensures { result ≡ cond (eqb (item % 2) side) mask 0 }
{
    if item % 2 == side { mask } else { 0 }
}

// Makes an entry for each code of the items, rising: what its items of sources have in `writes`, what those of targets have in
// `reads`. How many there are.
pub fn unite(
    codes: &[u32; ITEMS],
    masks: &[u32; RECORD_NUMBERS],
    order: &[u16; ITEMS],
    n: usize,
    keys: &mut [u32],
    writes: &mut [u32],
    reads: &mut [u32],
) -> usize
    requires { (n ≤ items) × Ordered codes.now n order.now × EntryRoom keys.old writes.old reads.old }
    ensures { UnitedItems (code_in codes.now) (side_mask masks.now 0) (side_mask masks.now 1) n keys.new writes.new reads.new result }
{
    let mut m: usize = 0;
    for i in 0..n {
        let item = order[i] as usize;
        let code = codes[item];
        let mask = masks[item / 2];
        let at = entry_for(&keys[..m], code);
        let written = mask_of(&writes[..m], at);
        let read = mask_of(&reads[..m], at);
        keys[at] = code;
        writes[at] = written | on_side(mask, item, SOURCES);
        reads[at] = read | on_side(mask, item, TARGETS);
        m = at + 1;
    }
    m
}
