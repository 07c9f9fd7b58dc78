// The pairs of a role and a user, by number, as words: 64 pairs a word, and a word for each role and each user.
ghost use Rattle.std.specs.Prelude.{◌≡◌, ◌≤◌, ◌<◌, length};
ghost use Rattle.context.specs.Inner.Places.{Countable};
ghost use Rattle.search_constraints.specs.Inner.Pairs.{row_entries, BitPut, RowsOf};

use policy_image::counts::Counts;

// For each 64 pairs, by number, 16 words that say of which pairs it is the role, and 16 of which it is the user.
pub const ROW: usize = 32;

pub const USERS_AT: usize = 16;

pub const ROWS: usize = 4 * ROW;

// Adds bit k to the word at a place.
fn put_bit(rows: &mut [u64; ROWS], at: usize, k: u32)
    requires { (length rows.old ≡ row_entries) × (at < row_entries) × (k < 64) }
    ensures { BitPut rows.old rows.new at k }
{
    rows[at] = rows[at] | (1 << k);
}

// The words of all pairs.
pub fn pair_rows(counts: Counts) -> [u64; ROWS]
    requires { Countable counts × (counts.roles ≤ 15) × (counts.users ≤ 15) }
    ensures { RowsOf counts result }
{
    let mut rows = [0u64; ROWS];
    let pairs = counts.roles * counts.users;
    for i in 0..pairs {
        let role = (i / counts.users + 1) as usize;
        let user = (i % counts.users + 1) as usize;
        let at = ROW * ((i / 64) as usize);
        put_bit(&mut rows, at + role, i % 64);
        put_bit(&mut rows, at + USERS_AT + user, i % 64);
    }
    rows
}
