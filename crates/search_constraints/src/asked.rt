// What was asked of the constraints is remembered: words of pairs, by what they depend on.
ghost use Rattle.std.specs.Prelude.{◌≡◌, ◌+◌, ◌≤◌, ◌<◌, length, get_or, set};
ghost use Rattle.base.specs.Inner.Fill.{Filled};
ghost use Rattle.policy_image.specs.Policy.{policy_of};
ghost use Rattle.policy_check.specs.Inner.Sound.{Sound};
ghost use Rattle.constraints.specs.Inner.Words.{leaf_entries, role_words_at};
ghost use Rattle.search_constraints.specs.Inner.Pairs.{row_entries, RowsOf, Marked};
ghost use Rattle.search_constraints.specs.Inner.Asked.{side_of, way_of, ask_key, Askable, AskLeaves, AskedWord, AskedBefore};

use crate::marks::{MARKS, ROLE_MARKS, TYPE_MARKS, USER_MARKS, told};
use crate::rows::{ROW, ROWS, USERS_AT};
use constraints::constraints_word;
use constraints::leaves::{
    ACTED, ACTING, LEAVES, ROLES_AT, SAME_ROLE_AT, SAME_USER_AT, SIDE, put_context,
};
use context::{Context, Event};

// The event; the context x; the type whose pairs are asked for, 64 of them, by the number of their word; and whether x acts on them or they
// on x.
#[derive(Clone, Copy)]
pub struct Ask {
    pub event: u32,
    pub x: Context,
    pub ty: u32,
    pub word: u32,
    pub acts: bool,
}

// How much is remembered: by slot a key, and behind all keys the words.
pub const SLOTS: usize = 1024;

pub const MEMO: usize = 2 * SLOTS;

// x's side.
fn side_of(acts: bool) -> usize
    ensures { (result ≡ side_of acts) × (result < 2) }
{
    if acts { ACTING } else { ACTED }
}

fn way_of(acts: bool) -> u64
    ensures { (result ≡ way_of acts) × (result < 2) }
{
    if acts { 1 } else { 0 }
}

// What the answer depends on, as one number that is not 0.
fn ask_key(marks: &[u8; MARKS], a: Ask) -> u64
    requires { Askable a }
    ensures { result ≡ ask_key marks.now a }
{
    let x = a.x;
    let what = 8 * (a.event as u64) + 4 * way_of(a.acts) + (a.word as u64);
    let types = 512 * (told(marks, TYPE_MARKS, x.ty) as u64)
        + (told(marks, TYPE_MARKS, a.ty) as u64);
    let pair = 32 * (told(marks, ROLE_MARKS, x.role) as u64)
        + (told(marks, USER_MARKS, x.user) as u64);
    1024 * (262144 * what + types) + pair + 1
}

// The type and the words of 64 pairs, on a side.
fn put_pairs(leaves: &mut [u64; LEAVES], side: usize, ty: u32, rows: &[u64; ROWS], at: usize)
    requires { (length leaves.old ≡ leaf_entries) × (side < 2) × (at + 32 ≤ row_entries) }
    ensures { (length leaves.new ≡ leaf_entries) × Filled (λ i v. v ≡ get_or rows.now (at + i) 0) (set leaves.old side ty) leaves.new (role_words_at side) 0 32 }
{
    leaves[side] = ty as u64;
    let first = ROLES_AT + SIDE * side;
    leaves[first..first + ROW].copy_from_slice(&rows[at..at + ROW]);
}

// The leaves of the pairs of x with the contexts of the type.
fn ask_leaves(rows: &[u64; ROWS], a: Ask) -> [u64; LEAVES]
    requires { Askable a }
    ensures { AskLeaves rows.now a result }
{
    let x = a.x;
    let at = ROW * (a.word as usize);
    let mut leaves = [0u64; LEAVES];
    leaves[SAME_ROLE_AT] = rows[at + (x.role as usize)];
    leaves[SAME_USER_AT] = rows[at + USERS_AT + (x.user as usize)];
    let own = side_of(a.acts);
    put_context(&mut leaves, own, x);
    put_pairs(&mut leaves, 1 - own, a.ty, rows, at);
    leaves
}

// Of which of the pairs all constraints on the event hold.
pub fn asked_word(
    policy: &[u8],
    rows: &[u64; ROWS],
    marks: &[u8; MARKS],
    memo: &mut [u64; MEMO],
    a: Ask,
) -> u64
    requires { Sound policy.now × RowsOf (policy_of policy.now).counts rows.now × Marked (policy_of policy.now) marks.now × AskedBefore (policy_of policy.now) marks.now memo.old × Askable a }
    ensures { AskedWord (policy_of policy.now) a result × AskedBefore (policy_of policy.now) marks.now memo.new }
{
    let key = ask_key(marks, a);
    let slot = (key % 1021) as usize;
    if memo[slot] == key {
        return memo[SLOTS + slot];
    }
    let leaves = ask_leaves(rows, a);
    let word = constraints_word(policy, Event::decode(a.event), &leaves);
    memo[slot] = key;
    memo[SLOTS + slot] = word;
    word
}
