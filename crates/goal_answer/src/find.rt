// What is found of a goal, by two searches of a plan: for events first, and for order up to as many steps, so that order wins on a tie and its
// links are left where it wins.
ghost use Rattle.std.specs.Prelude.{length};
ghost use Rattle.search_graph.specs.Inner.Visits.{Cleared, Visited};
ghost use Rattle.goal_answer.specs.Inner.Finding.{Searchable, FoundGoal};

use search::levels::End;
use search::search;
use search_graph::monitor::Mode;
use search_graph::task::Query;
use search_graph::visits::undo;

// What breaks a goal: the end of a shortest path that breaks it, up to a bound on the number of steps.
#[derive(Clone, Copy)]
pub enum Breach {
    // a shortest path that breaks the goal breaks order; the links to its end are in place
    Order(End),
    // a shortest path that breaks the goal breaks events, and none of as many steps breaks order; with one leg the links to its end are in
    // place, and else the search for order has overwritten them
    Events(End),
}

// What is found, and how many nodes the last search visited: as many places of the first work slice list them.
#[derive(Clone, Copy)]
pub struct GoalSought {
    pub breach: Option<Breach>,
    pub visited: usize,
}

// The sort of a goal's answer and the least number of steps, up to a bound on them, which it may come to. Both modes are
// asked, whichever the query has. No node is visited, and then those that the first work slice lists.
pub fn find_by(query: Query, bound: u32, work1: &mut [u32], work2: &mut [u32]) -> GoalSought
    requires { Searchable query.policy.now query.plan.now query.task.counts query.task.legs (length work1.old) (length work2.old) × Cleared work2.old 0 }
    ensures { FoundGoal query.entry.policy.now query.entry.plan.now query.entry.task.counts query.entry.task.legs bound work2.new result.breach × Visited work1.new work2.new result.visited }
{
    let by_events = query.with_mode(Mode::Events);
    let first = search(by_events, bound, work1, work2);
    let events = first.found.map(Breach::Events);
    // with one leg no path breaks order
    if query.task.legs.count == 1 {
        return GoalSought {
            breach: events,
            visited: first.visited,
        };
    }
    let steps = first.found.map_or(bound, End::steps);
    undo(work1, work2, first.visited);
    let by_order = query.with_mode(Mode::Order);
    let second = search(by_order, steps, work1, work2);
    // order wins on a tie
    GoalSought {
        breach: second.found.map(Breach::Order).or(events),
        visited: second.visited,
    }
}
