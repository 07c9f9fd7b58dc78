// The search of the nodes of a plan, each a context and a monitor's state, level by level.
#![tactic(auto)]

pub mod levels;

ghost use Rattle.search_graph.specs.Inner.Seeds.{Roomy};
ghost use Rattle.search_graph.specs.Inner.Tasks.{Given};
ghost use Rattle.search_graph.specs.Inner.Visits.{Visited};
ghost use Rattle.search.specs.Inner.Found.{FoundLeast};

use crate::levels::{End, Sought, search_levels};
use context::Context;
use search_graph::seed::{Seeded, seed};
use search_graph::task::Query;

// The least number of steps to a bad end, for a query, where it is at most the bound. The plan is made once, and serves
// every search. The slices hold an entry for each node, and none is visited; back then leads from the node that is found
// to a start, until what was visited is undone for the next search.
pub fn search(query: Query, bound: u32, queue: &mut [u32], back: &mut [u32]) -> Sought
    requires { Given query.policy.now query.plan.now query.task × Roomy query.task queue.old back.old }
    ensures { FoundLeast query.entry.policy.now query.entry.plan.now query.entry.task bound back.new result.found × Visited queue.new back.new result.visited }
{
    match seed(query.plan, query.task, queue, back) {
        Seeded::Start(y, tail) => {
            let start = Context::at(y, query.task.counts);
            Sought {
                found: Some(End::Start(start.code())),
                visited: tail,
            }
        }
        Seeded::Nodes(tail) => search_levels(query, bound, tail, queue, back),
    }
}
