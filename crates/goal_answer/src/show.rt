// What is shown of what is found of a goal: its path, where there is room for it.
ghost use Rattle.std.specs.Prelude.{length};
ghost use Rattle.search_graph.specs.declared.monitor.Mode.TheVariants.{Events};
ghost use Rattle.search_graph.specs.Inner.Model.{plan_model};
ghost use Rattle.search_graph.specs.Inner.Visits.{Visited};
ghost use Rattle.witness.specs.Inner.Shown.{FoundShown};
ghost use Rattle.goal_answer.specs.Inner.Finding.{Searchable, GoalFound, EventsFound, GoalShown};

use crate::find::{Breach, GoalSought};
use search::levels::End;
use search::search;
use search_graph::monitor::Mode;
use search_graph::task::Query;
use search_graph::visits::undo;
use witness::path::{NoRoom, show_found};

// Shows a path that breaks events, where the last search visited so many nodes.
fn show_events(
    query: Query,
    end: End,
    visited: usize,
    work1: &mut [u32],
    work2: &mut [u32],
    path: &mut [u32],
) -> Result<Option<u32>, NoRoom>
    requires { Searchable query.policy.now query.plan.now query.task.counts query.task.legs (length work1.old) (length work2.old) × EventsFound query.policy.now query.plan.now query.task.counts query.task.legs work2.old end × Visited work1.old work2.old visited }
    ensures { FoundShown (plan_model query.entry.policy.now query.entry.plan.now query.entry.task.counts query.entry.task.legs) Events (Some end) path.old path.new result }
{
    let by_events = query.with_mode(Mode::Events);
    // no other search came after that for events
    if query.task.legs.count == 1 {
        return show_found(by_events, Some(end), work2, path);
    }
    let m = end.steps();
    // where there is no room for the path, its links are not needed
    if path.len() < 2 * (m as usize) + 1 {
        return Err(NoRoom { steps: m });
    }
    // the search for order has overwritten them
    undo(work1, work2, visited);
    let again = search(by_events, m, work1, work2).found;
    show_found(by_events, again, work2, path)
}

// Shows a path of what is found.
pub fn show_by(
    query: Query,
    found: GoalSought,
    work1: &mut [u32],
    work2: &mut [u32],
    path: &mut [u32],
) -> Result<Option<u32>, NoRoom>
    requires { Searchable query.policy.now query.plan.now query.task.counts query.task.legs (length work1.old) (length work2.old) × GoalFound query.policy.now query.plan.now query.task.counts query.task.legs work2.old found.breach × Visited work1.old work2.old found.visited }
    ensures { GoalShown (plan_model query.entry.policy.now query.entry.plan.now query.entry.task.counts query.entry.task.legs) found.breach path.old path.new result }
{
    let Some(breach) = found.breach else {
        return Ok(None);
    };
    match breach {
        Breach::Order(end) => {
            let by_order = query.with_mode(Mode::Order);
            show_found(by_order, Some(end), work2, path)
        }
        Breach::Events(end) => show_events(query, end, found.visited, work1, work2, path),
    }
}
