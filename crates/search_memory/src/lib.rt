// What a search remembers, so that it sweeps the contexts of a type once for each part of a state that a step depends on.
#![tactic(auto)]

pub mod first;
pub mod opens;
pub mod turn;

ghost use Rattle.std.specs.Prelude.{◌≡◌, ◌<◌, length};
ghost use Rattle.plan_tables.specs.Inner.Tables.{type_entries};
ghost use Rattle.search_steps.specs.Inner.Nearest.{state_codes};
ghost use Rattle.search_memory.specs.Inner.Memory.{keeps_of, Marks, Remembered};

use plan_tables::TYPES;
use search_graph::monitor::Mode;
use search_steps::nearest::WHOLE;

// The bits of a state that every event keeps: all of them for order; for events those of the event's own legs are kept, and no others. The one
// state of a search for any end has no bits.
pub fn keeps_of(mode: Mode) -> u32
    ensures { result ≡ keeps_of mode }
{
    match mode {
        Mode::Order => WHOLE,
        Mode::Events => 0,
        Mode::Any => 0,
    }
}

// The set of k alone, or none.
fn mark(k: u32, yes: bool) -> u64
    requires { k < state_codes }
    ensures { Marks k yes result }
{
    if yes { 1 << k } else { 0 }
}

// Adds k to the set of the type, where yes.
pub fn remember(sets: &mut [u64; TYPES], ty: u32, k: u32, yes: bool)
    requires { (length sets.old ≡ type_entries) × (ty < type_entries) × (k < state_codes) }
    ensures { Remembered sets.old sets.new ty k yes }
{
    let at = ty as usize;
    sets[at] = sets[at] | mark(k, yes);
}
