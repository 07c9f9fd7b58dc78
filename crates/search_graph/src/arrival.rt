// What arriving at a context comes to, and whether steps from one are asked.
ghost use Rattle.std.specs.Prelude.{◌≡◌, suc, ◌*◌, ◌^◌, ◌≤◌, ◌<◌};
ghost use Rattle.context.specs.Inner.Places.{OfType};
ghost use Rattle.search_graph.specs.Inner.Model.{asks_by};
ghost use Rattle.search_graph.specs.Inner.Tasks.{states_in, ReadablePlan, Readable};
ghost use Rattle.search_graph.specs.Inner.Arrivals.{Arrived, Arriving};

use crate::monitor::{is_bad, step_state};
use crate::task::{Task, states_in};
use base::bits::has_bit;
use goal_image::sets::EXCEPTED_CONTEXTS;
use plan::meets::is_held;
use plan::sets::sets_at;
use policy_image::counts::Counts;

// A node to enter, by its number; an end that breaks nothing; or an end that breaks what is looked for.
#[derive(Clone, Copy)]
pub enum Arrival {
    Enter(u32),
    Dropped,
    Broken(u32),
}

// What arriving at the context at place y, in the sets into, with the state comes to.
pub fn land(task: Task, into: u32, y: u32, state: u32) -> Arrival
    requires { (task.legs.count ≤ 6) × (y * states_in task < 2 ^ 26) × (state < 2 ^ suc task.legs.count) }
    ensures { Arrived task into y state result }
{
    if has_bit(into, task.legs.count) {
        if is_bad(task, state) {
            return Arrival::Broken(y * states_in(task) + state);
        }
        return Arrival::Dropped;
    }
    Arrival::Enter(y * states_in(task) + state)
}

// What a step to the context at place y, of the type, comes to, from the state, by an event in the sets by.
pub fn arrive(plan: &[u32], task: Task, state: u32, by: u32, ty: u32, y: u32) -> Arrival
    requires { Readable plan.now task × OfType task.counts ty y }
    ensures { Arriving plan.now task state by y result }
{
    let counts = task.counts;
    let into = sets_at(counts, plan, ty, y);
    land(task, into, y, step_state(task, state, by, into))
}

// Whether steps from the context at place y, of the type, are asked at all: it is not in σe, and meets ρ and μ.
pub fn is_asked(counts: Counts, plan: &[u32], ty: u32, y: u32) -> bool
    requires { ReadablePlan counts plan.now × OfType counts ty y }
    ensures { result ≡ asks_by counts plan.now ty y }
{
    let into = sets_at(counts, plan, ty, y);
    !has_bit(into, EXCEPTED_CONTEXTS) & is_held(counts, plan, ty, y)
}
