// What a search is asked.
ghost use Rattle.std.specs.Prelude.{◌≡◌, ◌≤◌};
ghost use Rattle.search_graph.specs.Inner.Tasks.{state_bits, bits_in, States};

use crate::monitor::Mode;
use goal_image::check::Legs;
use policy_image::counts::Counts;

// The counts of the policy, the legs of the goal, and what is looked for.
#[derive(Clone, Copy)]
pub struct Task {
    pub counts: Counts,
    pub legs: Legs,
    pub mode: Mode,
}

// A task, and what it is asked of: a policy, and the plan that was made of it.
#[derive(Clone, Copy)]
pub struct Query<'a> {
    pub policy: &'a [u8],
    pub plan: &'a [u32],
    pub task: Task,
}

impl<'a> Query<'a> {
    // The same query, in another mode.
    pub fn with_mode(self, mode: Mode) -> Query<'a>
        ensures { result ≡ record self.entry { task = record self.entry.task { mode = mode } } }
    {
        Query {
            task: Task { mode, ..self.task },
            ..self
        }
    }
}

// The number of states of so many bits.
pub fn state_count(bits: u32) -> u32
    requires { bits ≤ 6 }
    ensures { States bits result }
{
    1 << bits
}

// The number of bits of a state where no path ends: one for each leg, and none where any end is looked for.
fn state_bits(mode: Mode, legs: u32) -> u32
    ensures { result ≡ state_bits mode legs }
{
    match mode {
        Mode::Order | Mode::Events => legs,
        Mode::Any => 0,
    }
}

// The number of states of a context.
pub fn states_in(task: Task) -> u32
    requires { task.legs.count ≤ 6 }
    ensures { States (bits_in task) result }
{
    let mode = task.mode;
    state_count(state_bits(mode, task.legs.count))
}
