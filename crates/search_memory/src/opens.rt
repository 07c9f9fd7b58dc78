// Which contexts of a type are left to enter, as sets of pairs of a role and a user, by type and by what an event keeps of a state.
ghost use Rattle.std.specs.Prelude.{◌≡◌, ◌+◌, ◌≤◌, ◌<◌, length};
ghost use Rattle.base.specs.Inner.Fill.{Filled};
ghost use Rattle.plan.specs.Inner.Plan.{PlanCounts};
ghost use Rattle.plan.specs.Inner.Regions.{plan_entries};
ghost use Rattle.plan_tables.specs.Inner.Tables.{type_entries};
ghost use Rattle.search_steps.specs.Inner.Nearest.{state_codes};
ghost use Rattle.search_memory.specs.Inner.Opens.{open_entries, slot_of, open_key, HeldWord, SlotOpened, PairsTaken};

use plan::regions::{HOLDERS_START, ROLES_START};
use policy_image::counts::Counts;

// How much is remembered: by slot a key, and behind all keys four words for each slot.
pub const SLOTS: usize = 1024;

pub const OPENS: usize = 5 * SLOTS;

// The slot of a type and of what is kept, and their key, which is not 0.
fn slot_of(types: u32, ty: u32, kept: u32) -> usize
    requires { (types < type_entries) × (ty < type_entries) × (kept < state_codes) }
    ensures { result ≡ slot_of types ty kept }
{
    ((kept * types + ty) % 1024) as usize
}

fn open_key(ty: u32, kept: u32) -> u64
    requires { (ty < type_entries) × (kept < state_codes) }
    ensures { result ≡ open_key ty kept }
{
    (64 * ty + kept + 1) as u64
}

// The pairs that meet ρ and μ with the type, of 64.
fn held_word(counts: Counts, plan: &[u32], ty: u32, word: u32) -> u64
    requires { PlanCounts counts × (plan_entries ≤ length plan.now) × (ty < type_entries) × (word < 4) }
    ensures { HeldWord counts plan.now ty word result }
{
    let pairs = counts.roles * counts.users;
    let own = plan[ROLES_START + (ty as usize)];
    let first = 64 * word;
    let mut r: u64 = 0;
    for j in 0..64 {
        if first + j >= pairs {
            return r;
        }
        let pair = HOLDERS_START + ((first + j) as usize);
        if own & plan[pair] != 0 {
            r |= 1 << j;
        }
    }
    r
}

// Fills the four words from a place on.
fn put_held(counts: Counts, plan: &[u32], opens: &mut [u64; OPENS], first: usize, ty: u32)
    requires { PlanCounts counts × (plan_entries ≤ length plan.now) × (length opens.old ≡ open_entries) × (first + 4 ≤ open_entries) × (ty < type_entries) }
    ensures { (length opens.new ≡ open_entries) × Filled (λ w v. HeldWord counts plan.now ty w v) opens.old opens.new first 0 4 }
{
    for w in 0..4 {
        opens[first + (w as usize)] = held_word(counts, plan, ty, w);
    }
}

// The pairs of the type that are left: all that meet ρ and μ, where nothing is remembered.
pub fn open_pairs(
    counts: Counts,
    plan: &[u32],
    opens: &mut [u64; OPENS],
    ty: u32,
    kept: u32,
) -> [u64; 4]
    requires { PlanCounts counts × (plan_entries ≤ length plan.now) × (length opens.old ≡ open_entries) × (ty < type_entries) × (kept < state_codes) }
    ensures { SlotOpened counts plan.now opens.old opens.new ty kept result }
{
    let slot = slot_of(counts.types, ty, kept);
    let key = open_key(ty, kept);
    let first = SLOTS + 4 * slot;
    if opens[slot] != key {
        opens[slot] = key;
        put_held(counts, plan, opens, first, ty);
    }
    [
        opens[first],
        opens[first + 1],
        opens[first + 2],
        opens[first + 3],
    ]
}

// Takes the pairs out of those that are left, and says whether none is.
pub fn take_pairs(
    counts: Counts,
    opens: &mut [u64; OPENS],
    ty: u32,
    kept: u32,
    pairs: &[u64; 4],
) -> bool
    requires { PlanCounts counts × (length opens.old ≡ open_entries) × (ty < type_entries) × (kept < state_codes) }
    ensures { PairsTaken counts opens.old opens.new ty kept pairs.now result }
{
    let first = SLOTS + 4 * slot_of(counts.types, ty, kept);
    let mut none = true;
    for w in 0..4 {
        let old = opens[first + w];
        let left = old & (old ^ pairs[w]);
        opens[first + w] = left;
        if left != 0 {
            none = false;
        }
    }
    none
}
