// The path to the end that a search found, written from that end by the links that the search left.
ghost use Rattle.std.specs.Prelude.{◌≡◌, ◌+◌, ◌*◌, ◌≤◌, length};
ghost use Rattle.search_graph.specs.Inner.Nodes.{code_of};
ghost use Rattle.search_graph.specs.Inner.Tasks.{Given, model_by, graph_of};
ghost use Rattle.search.specs.Inner.Found.{FoundBy};
ghost use Rattle.witness.specs.Inner.Shown.{ShownPath, SearchFound, FoundShown, NodeIn};

use crate::step::{SWEPT, least_event};
use context::Context;
use plan_tables::TYPES;
use policy_image::counts::Counts;
use search::levels::{End, LastStep};
use search_graph::task::{Query, states_in};

// The path slice is too short for the least number of steps: nothing is written.
#[derive(Clone, Copy)]
pub struct NoRoom {
    pub steps: u32,
}

// The code of a node's context.
fn code_of(counts: Counts, states: u32, v: u32) -> u32
    requires { NodeIn counts states v }
    ensures { result ≡ code_of counts states v }
{
    Context::at(v / states, counts).code()
}

// Writes the path that ends with the step.
fn write_path(query: Query, last: LastStep, back: &[u32], path: &mut [u32])
    requires { Given query.policy.now query.plan.now query.task × FoundBy (graph_of query.policy.now query.plan.now query.task) back.now last × ((graph_of query.policy.now query.plan.now query.task).k ≤ length back.now) × (2 * (last.depth + 1) + 1 ≤ length path.old) }
    ensures { ShownPath (model_by query.entry.policy.now query.entry.plan.now query.entry.task) query.entry.task.mode (last.depth + 1) path.old path.new }
{
    let counts = query.task.counts;
    let states = states_in(query.task);
    let mut swept = [SWEPT; TYPES];
    let to = last.to;
    let mut i = last.depth as usize + 1;
    path[2 * i] = code_of(counts, states, to);
    let mut w = last.from;
    let mut e = last.event;
    loop {
        i -= 1;
        path[2 * i + 1] = e;
        path[2 * i] = code_of(counts, states, w);
        if i == 0 {
            return;
        }
        let next = w;
        let at = next as usize;
        w = back[at] - 1;
        e = least_event(query, &mut swept, w, next);
    }
}

// Shows the path to the end that a search found, where there is room for it, and gives its number of steps; None where
// no end was found.
pub fn show_found(
    query: Query,
    found: Option<End>,
    back: &[u32],
    path: &mut [u32],
) -> Result<Option<u32>, NoRoom>
    requires { Given query.policy.now query.plan.now query.task × SearchFound query.policy.now query.plan.now query.task back.now found × ((graph_of query.policy.now query.plan.now query.task).k ≤ length back.now) }
    ensures { FoundShown (model_by query.entry.policy.now query.entry.plan.now query.entry.task) query.entry.task.mode found path.old path.new result }
{
    let Some(end) = found else {
        return Ok(None);
    };
    let m = end.steps();
    if path.len() < 2 * (m as usize) + 1 {
        return Err(NoRoom { steps: m });
    }
    match end {
        End::Start(x) => path[0] = x,
        End::Step(last) => write_path(query, last, back, path),
    }
    Ok(Some(m))
}
