// The nodes that a search starts from.
ghost use Rattle.context.specs.Inner.Places.{OfType};
ghost use Rattle.search_graph.specs.Inner.Seeds.{Roomy, Beginning, AllSown};
ghost use Rattle.search_graph.specs.Inner.Tasks.{Readable};

use crate::arrival::{Arrival, land};
use crate::monitor::start_state;
use crate::starts::{may_start, pairs_start};
use crate::task::{Task, states_in};
use base::bits::has_bit;
use context::Context;
use context::places::first_place;
use plan::meets::is_held;
use plan::sets::sets_at;

// How many nodes are in the queue, in rising order; or the place of the first start that is a bad end, and how many were put there before it.
#[derive(Clone, Copy)]
pub enum Seeded {
    Nodes(usize),
    Start(u32, usize),
}

// What the context at place y, of the type, comes to as a start: where it is none, it is dropped.
fn start_at(plan: &[u32], task: Task, ty: u32, y: u32) -> Arrival
    requires { Readable plan.now task × OfType task.counts ty y }
    ensures { Beginning plan.now task y result }
{
    let counts = task.counts;
    let into = sets_at(counts, plan, ty, y);
    if !has_bit(into, 0) {
        return Arrival::Dropped;
    }
    if !is_held(counts, plan, ty, y) {
        return Arrival::Dropped;
    }
    land(task, into, y, start_state(task, into))
}

// Puts the starts that are no ends into the queue, by place. A type that has none is passed over.
pub fn seed(plan: &[u32], task: Task, queue: &mut [u32], back: &mut [u32]) -> Seeded
    requires { Readable plan.now task × Roomy task queue.old back.old }
    ensures { AllSown plan.now task queue.new back.new result }
{
    let counts = task.counts;
    let nodes = Context::count(counts) * states_in(task);
    let paired = pairs_start(counts, plan);
    let mut tail: usize = 0;
    for ty in 1..=counts.types {
        if !may_start(counts, plan, paired, ty) {
            continue;
        }
        for y in first_place(counts, ty)..first_place(counts, ty + 1) {
            match start_at(plan, task, ty, y) {
                Arrival::Broken(_) => {
                    return Seeded::Start(y, tail);
                }
                Arrival::Dropped => {}
                Arrival::Enter(v) => {
                    back[v as usize] = nodes + 1;
                    queue[tail] = v;
                    tail += 1;
                }
            }
        }
    }
    Seeded::Nodes(tail)
}
