// What order asks of the contexts of a path so far.
ghost use Rattle.std.specs.Prelude.{◌<◌};
ghost use Rattle.paths.specs.Inner.Tracker.{Tracked};

// The state after one more context; the state before the first is 0. Bit i of in_context says that the context is in set i.
// Bit 0 of a state says that order is broken, and bit i, from 1 to n - 1, that set i has been met. The goal has n legs.
pub fn track(state: u32, in_context: u32, n: u32) -> u32
    requires { (0 < n) × (n < 32) }
    ensures { Tracked state in_context n result }
{
    let below = (1 << n) - 1;
    let middle = below - 1;
    let asked = (in_context >> 1) & middle;
    let met = (state & below) | (in_context & middle);
    if asked & state == asked { met } else { met | 1 }
}
