// What the leaves of an expression say of up to 64 pairs of contexts at once, in which one context acts on the other. A word has a bit for
// each pair; all contexts on a side have the same type.
ghost use Rattle.std.specs.Prelude.{◌≡◌, ◌+◌, ◌≤◌, ◌<◌, eqb, length};
ghost use Rattle.base.specs.Inner.Fill.{Filled};
ghost use Rattle.constraints.specs.Inner.Words.{AllIf, leaf_entries, SidePut, LeavesOf, LeafWord};

use context::Context;
use policy_image::kinds::{
    ROLE_1, ROLE_2, SAME_ROLE, SAME_TYPE, SAME_USER, TYPE_1, TYPE_2, USER_1, USER_2,
};

// The side that acts, and the one that is acted on. The type of each stands first.
pub const ACTING: usize = 0;

pub const ACTED: usize = 1;

// Then the words of `same role` and `same user`.
pub const SAME_ROLE_AT: usize = 2;

pub const SAME_USER_AT: usize = 3;

// Then for each side, by number, 16 words that say whether it is the role, and 16 whether it is the user.
pub const ROLES_AT: usize = 4;

pub const USERS_AT: usize = ROLES_AT + 16;

pub const SIDE: usize = 32;

pub const LEAVES: usize = ROLES_AT + 2 * SIDE;

// All 64 bits.
pub const ALL: u64 = 18446744073709551615;

// All bits, or none.
pub fn all_if(yes: bool) -> u64
    ensures { AllIf yes result }
{
    if yes { ALL } else { 0 }
}

// By number below 16: whether it is v.
fn put_number(leaves: &mut [u64; LEAVES], at: usize, v: u32)
    requires { (length leaves.old ≡ leaf_entries) × (at + 16 ≤ leaf_entries) }
    ensures { (length leaves.new ≡ leaf_entries) × Filled (λ b r. AllIf (eqb v b) r) leaves.old leaves.new at 0 16 }
{
    for b in 0..16 {
        leaves[at + (b as usize)] = all_if(v == b);
    }
}

// The same context on a side of all pairs.
pub fn put_context(leaves: &mut [u64; LEAVES], side: usize, z: Context)
    requires { (length leaves.old ≡ leaf_entries) × (side < 2) }
    ensures { (length leaves.new ≡ leaf_entries) × SidePut leaves.old leaves.new side 64 (λ _. z) }
{
    leaves[side] = z.ty as u64;
    put_number(leaves, ROLES_AT + SIDE * side, z.role);
    put_number(leaves, USERS_AT + SIDE * side, z.user);
}

// The leaves of one pair, as all of the 64: x acts, y is acted on.
pub fn one_pair(x: Context, y: Context) -> [u64; LEAVES]
    ensures { LeavesOf result 64 (λ _. x) (λ _. y) }
{
    let mut leaves = [0u64; LEAVES];
    leaves[SAME_ROLE_AT] = all_if(x.role == y.role);
    leaves[SAME_USER_AT] = all_if(x.user == y.user);
    put_context(&mut leaves, ACTING, x);
    put_context(&mut leaves, ACTED, y);
    leaves
}

// The word of a leaf with the operator and the number b.
pub fn leaf(leaves: &[u64; LEAVES], op: u32, b: u32) -> u64
    requires { (op ≡ 1 → ⊥) × (op ≡ 2 → ⊥) × (op ≡ 3 → ⊥) × (9 ≤ op → op ≤ 12 → b < 16) }
    ensures { LeafWord leaves.now op b result }
{
    let n = b as usize;
    match op {
        SAME_TYPE => all_if(leaves[ACTING] == leaves[ACTED]),
        SAME_ROLE => leaves[SAME_ROLE_AT],
        SAME_USER => leaves[SAME_USER_AT],
        TYPE_1 => all_if(leaves[ACTING] == (b as u64)),
        TYPE_2 => all_if(leaves[ACTED] == (b as u64)),
        ROLE_1 => leaves[ROLES_AT + n],
        ROLE_2 => leaves[ROLES_AT + SIDE + n],
        USER_1 => leaves[USERS_AT + n],
        USER_2 => leaves[USERS_AT + SIDE + n],
        _ => 0,
    }
}
