// A node whose steps are to be asked.
ghost use Rattle.std.specs.Prelude.{◌*◌, ◌<◌};
ghost use Rattle.context.specs.Inner.Places.{context_count};
ghost use Rattle.search_graph.specs.Inner.Tasks.{states_in, Readable};
ghost use Rattle.search_memory.specs.Inner.Memory.{TakenUp};

use crate::keeps_of;
use base::bits::has_member;
use context::Context;
use plan_tables::TYPES;
use search_graph::arrival::is_asked;
use search_graph::task::{Task, states_in};
use search_steps::nearest::Asker;

// Its context, who asks for its steps, and whether steps from there are asked at all.
#[derive(Clone, Copy)]
pub struct Node {
    pub x: Context,
    pub asker: Asker,
    pub asks: bool,
}

// Takes up node u. The states of a type that are in spent are asked for their special steps alone.
pub fn take_up(plan: &[u32], task: Task, u: u32, spent: &[u64; TYPES]) -> Node
    requires { Readable plan.now task × (u < context_count task.counts * states_in task) }
    ensures { TakenUp plan.now task spent.now u result }
{
    let counts = task.counts;
    let states = states_in(task);
    let place = u / states;
    let state = u % states;
    let x = Context::at(place, counts);
    let own = x.ty as usize;
    let mode = task.mode;
    Node {
        x,
        asker: Asker {
            state,
            keeps: keeps_of(mode),
            spent: has_member(spent[own], state),
        },
        asks: is_asked(counts, plan, x.ty, place),
    }
}
