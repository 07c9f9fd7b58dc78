// The monitors that a search runs, by its mode: the state at a start, after a step, and whether a state is bad at an end. They
// read the sets that the context and the event are in: bit i for σi, bit 7 + i for γi.
ghost use Rattle.std.specs.Prelude.{◌≡◌, ◌<◌, ◌≤◌};
ghost use Rattle.search_graph.specs.Inner.Watching.{stages_from, Started, Stepped, Judged};

use crate::task::Task;
use base::bits::has_bit;
use goal_image::sets::EVENT_CHAINS;
use paths::stages::advance;
use paths::tracker::track;

// What a search looks for: an end of a path that breaks order, one that breaks events, or any end.
#[derive(Clone, Copy)]
pub enum Mode {
    Order,
    Events,
    Any,
}

// The state at a start.
pub fn start_state(task: Task, into: u32) -> u32
    requires { (0 < task.legs.count) × (task.legs.count < 32) }
    ensures { Started task.mode task.legs into result }
{
    let mode = task.mode;
    match mode {
        Mode::Order => track(0, into, task.legs.count),
        Mode::Events => 1,
        Mode::Any => 0,
    }
}

// The stages that a step goes on from, where order is not looked for: none, where any end is.
fn stages_from(mode: Mode, state: u32) -> u32
    ensures { result ≡ stages_from mode state }
{
    match mode {
        Mode::Order | Mode::Events => state,
        Mode::Any => 0,
    }
}

// The state after a step. From no stage none is reached, so that a step has to tell order alone from the other modes.
pub fn step_state(task: Task, state: u32, by: u32, into: u32) -> u32
    requires { (0 < task.legs.count) × (task.legs.count ≤ 7) }
    ensures { Stepped task.mode task.legs state by into result }
{
    let mode = task.mode;
    if let Mode::Order = mode {
        return track(state, into, task.legs.count);
    }
    advance(
        stages_from(mode, state),
        task.legs.repeated,
        by >> EVENT_CHAINS,
        into,
        task.legs.count,
    )
}

// Whether the state is bad at an end.
pub fn is_bad(task: Task, state: u32) -> bool
    requires { task.legs.count < 32 }
    ensures { Judged task.mode task.legs state result }
{
    let mode = task.mode;
    match mode {
        Mode::Order => has_bit(state, 0),
        Mode::Events => !has_bit(state, task.legs.count),
        Mode::Any => true,
    }
}
