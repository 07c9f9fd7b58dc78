// Items with the same code become one entry: where a code's entry stands, and what mask it has so far.
ghost use Rattle.std.specs.Prelude.{◌≡◌, length, get_or};
ghost use Rattle.sorting.specs.Inner.Entries.{CodesRise, Placed};

// The number of a code's entry, where no entry so far has a greater code: that of the last one, or the next.
pub fn entry_for(keys: &[u32], code: u32) -> usize
    requires { CodesRise keys.now (length keys.now) code }
    ensures { Placed keys.now (length keys.now) code result }
{
    match keys.last() {
        Some(last) if *last == code => keys.len() - 1,
        _ => keys.len(),
    }
}

// The mask that an entry has, by its number, where it is one of the entries so far, and else none.
pub fn mask_of(masks: &[u32], at: usize) -> u32
    ensures { result ≡ get_or masks.now at 0 }
{
    masks.get(at).copied().unwrap_or(0)
}
