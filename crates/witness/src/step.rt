// The event of a step between two nodes. A search does not keep it: it is found again, as the least that leads from one to the
// other.
ghost use Rattle.std.specs.Prelude.{◌≡◌, length, get_or};
ghost use Rattle.base.specs.Inner.Decides.{Decides};
ghost use Rattle.plan_tables.specs.Inner.Tables.{type_entries};
ghost use Rattle.plan.specs.Inner.Regions.{event_entries};
ghost use Rattle.search_graph.specs.Inner.Tasks.{Given, graph_of, type_of};
ghost use Rattle.witness.specs.Inner.Links.{LeastBelow, LinkedNodes, OfferedBetween};

use base::bits::has_bit;
use context::Context;
use goal_image::sets::EXCEPTED_EVENTS;
use plan::meets::is_held;
use plan::regions::{EVENT_SETS_START, TYPE_CODES};
use plan::sets::sets_at;
use plan_tables::TYPES;
use search_graph::arrival::{Arrival, land};
use search_graph::monitor::step_state;
use search_graph::task::{Query, states_in};
use search_memory::keeps_of;
use search_steps::nearest::{Asker, NONE};
use search_steps::offers::{first_offer, next_offer};
use search_steps::targets::{is_special, is_target};

// What a type has that is swept for every state: no step to it is asked.
pub const SWEPT: u64 = 18446744073709551615;

// Whether the event, which the entry offers from u's type to w's, leads from node u to node w.
fn is_step(query: Query, u: u32, e: u32, entry: usize, w: u32) -> bool
    requires { Given query.policy.now query.plan.now query.task × LinkedNodes (graph_of query.policy.now query.plan.now query.task) u w × OfferedBetween query.policy.now query.plan.now query.task u e entry w }
    ensures { Decides result ((graph_of query.entry.policy.now query.entry.plan.now query.entry.task).Edge u e w) }
{
    let Query { policy, plan, task } = query;
    let counts = task.counts;
    let states = states_in(task);
    let x = Context::at(u / states, counts);
    let place = w / states;
    let ty = Context::at(place, counts).ty;
    let special = is_special(plan, e);
    let by = plan[EVENT_SETS_START + (e as usize)];
    let leads = !has_bit(by, EXCEPTED_EVENTS)
        && is_held(counts, plan, ty, place)
        && is_target(policy, counts, plan, x, e, entry, special, place);
    if !leads {
        return false;
    }
    // Only here, since the records that name the type are walked through. An arrival, by its parts: were `arrive` called
    // from here too, the compiler would not put it inline into the search's innermost loop.
    let into = sets_at(counts, plan, ty, place);
    match land(task, into, place, step_state(task, u % states, by, into)) {
        Arrival::Enter(v) => v == w,
        Arrival::Dropped | Arrival::Broken(_) => false,
    }
}

// The least event that leads from node u to node w, of which there is one. Of what is swept, w's type is open; where it
// alone is, only the steps to it are asked.
fn event_between(query: Query, swept: &[u64; TYPES], u: u32, w: u32) -> u32
    requires { Given query.policy.now query.plan.now query.task × LinkedNodes (graph_of query.policy.now query.plan.now query.task) u w × (get_or swept.now (type_of query.task w) 0 ≡ 0) }
    ensures { LeastBelow (λ e. (graph_of query.entry.policy.now query.entry.plan.now query.entry.task).Edge u e w) event_entries result }
{
    let Query { plan, task, .. } = query;
    let counts = task.counts;
    let states = states_in(task);
    let x = Context::at(u / states, counts);
    let y = Context::at(w / states, counts);
    let a = Asker {
        state: u % states,
        keeps: keeps_of(task.mode),
        spent: false,
    };
    let mut offer = first_offer(plan, swept, a, x.ty);
    while offer.step < NONE {
        let e = offer.step / TYPE_CODES;
        if offer.step % TYPE_CODES == y.ty && is_step(query, u, e, offer.entry, w) {
            return e;
        }
        offer = next_offer(plan, swept, a, x.ty, offer);
    }
    unreachable!()
}

// The least event that leads from node u to node w, of which there is one. By type swept has SWEPT, which w's type has
// again afterwards: it is filled once for all steps of a path.
pub fn least_event(query: Query, swept: &mut [u64; TYPES], u: u32, w: u32) -> u32
    requires { Given query.policy.now query.plan.now query.task × LinkedNodes (graph_of query.policy.now query.plan.now query.task) u w × (length swept.old ≡ type_entries) }
    ensures { LeastBelow (λ e. (graph_of query.entry.policy.now query.entry.plan.now query.entry.task).Edge u e w) event_entries result × (length swept.new ≡ type_entries) }
{
    let counts = query.task.counts;
    let states = states_in(query.task);
    let y = Context::at(w / states, counts);
    let other = y.ty as usize;
    swept[other] = 0;
    let e = event_between(query, swept, u, w);
    swept[other] = SWEPT;
    e
}
