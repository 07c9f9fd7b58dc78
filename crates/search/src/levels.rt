// The search level by level: of the nodes in the queue, the events rising, and of each the types and their contexts rising.
ghost use Rattle.std.specs.Prelude.{◌≡◌, ◌<◌, ◌^◌};
ghost use Rattle.search_graph.specs.Inner.State.{Inv};
ghost use Rattle.search_graph.specs.Inner.Tasks.{Given, graph_of};
ghost use Rattle.search_graph.specs.Inner.Visits.{Visited};
ghost use Rattle.search.specs.Inner.Found.{steps_to, Searched};

use plan_tables::TYPES;
use search_constraints::asked::MEMO;
use search_constraints::marks::marks_of;
use search_constraints::rows::pair_rows;
use search_graph::arrival::{Arrival, arrive};
use search_graph::task::Query;
use search_memory::first::first_step;
use search_memory::opens::{OPENS, open_pairs, take_pairs};
use search_memory::remember;
use search_memory::turn::take_up;
use search_steps::nearest::{NONE, kept_of};
use search_steps::offers::next_offer;
use search_steps::pairs::{StepRules, pairs_of, step_pairs};
use search_steps::sweep::sweep_of;

// A step into a bad end: the node it is from, its event, the end's node, and the number of steps to the node it is from.
#[derive(Clone, Copy)]
pub struct LastStep {
    pub from: u32,
    pub event: u32,
    pub to: u32,
    pub depth: u32,
}

// The bad end that a search finds: a start, by its code; or the end of a step.
#[derive(Clone, Copy)]
pub enum End {
    Start(u32),
    Step(LastStep),
}

impl End {
    // How many steps away it is.
    pub fn steps(self) -> u32
        requires { steps_to self < 2 ^ 32 }
        ensures { result ≡ steps_to self }
    {
        match self {
            End::Start(_) => 0,
            End::Step(last) => last.depth + 1,
        }
    }
}

// What a search found, and how many nodes it visited: as many places of the queue list them.
#[derive(Clone, Copy)]
pub struct Sought {
    pub found: Option<End>,
    pub visited: usize,
}

// A bound that is no bound: there are fewer nodes than that, and a shortest path to an end has no more steps than there are nodes.
pub const UNBOUNDED: u32 = 67108864;

// The search from the nodes that are seeded, for an end of at most as many steps as the bound. A node's entry of back is 0 while it is not
// visited, and then one more than the number of the node before it, or a mark for a start. By type, swept has what an event kept of a
// state when all contexts of the type were entered, and spent the states from which all steps that are not special were taken: a later sweep
// would only meet nodes that are entered. From the states in shut no step is left to ask. Of a type that is not swept, opens has the pairs
// that are left to enter, and memo what the constraints on them are.
pub fn search_levels(
    query: Query,
    bound: u32,
    seeded: usize,
    queue: &mut [u32],
    back: &mut [u32],
) -> Sought
    requires { Given query.policy.now query.plan.now query.task × Inv (graph_of query.policy.now query.plan.now query.task) back.old queue.old 0 seeded seeded 0 }
    ensures { Searched (graph_of query.entry.policy.now query.entry.plan.now query.entry.task) bound back.new result.found × Visited queue.new back.new result.visited }
{
    let Query { policy, plan, task } = query;
    let counts = task.counts;
    let pairs = counts.roles * counts.users;
    let rows = pair_rows(counts);
    let marks = marks_of(policy);
    let rules = StepRules {
        policy,
        plan,
        rows: &rows,
        marks: &marks,
    };
    let mut memo = [0u64; MEMO];
    let mut opens = [0u64; OPENS];
    let mut swept = [0u64; TYPES];
    let mut spent = [0u64; TYPES];
    let mut shut = [0u64; TYPES];
    let mut tail = seeded;
    let mut head: usize = 0;
    let mut level_end = tail;
    let mut depth: u32 = 0;
    'search: loop {
        if tail <= head {
            break 'search Sought {
                found: None,
                visited: tail,
            };
        }
        if head == level_end {
            depth += 1;
            level_end = tail;
        }
        // a step from here arrives after depth + 1 steps
        if bound <= depth {
            break 'search Sought {
                found: None,
                visited: tail,
            };
        }
        let u = queue[head];
        let node = take_up(plan, task, u, &spent);
        let x = node.x;
        let state = node.asker.state;
        let mut offer = first_step(plan, &swept, &mut shut, node);
        while offer.step < NONE {
            let sweep = sweep_of(counts, plan, offer);
            let kept = kept_of(node.asker, sweep.sets);
            let left = open_pairs(counts, plan, &mut opens, sweep.ty, kept);
            let todo = step_pairs(rules, &mut memo, x, sweep, &left);
            for k in pairs_of(&todo, pairs) {
                match arrive(plan, task, state, sweep.sets, sweep.ty, sweep.start + k) {
                    Arrival::Broken(v) => {
                        break 'search Sought {
                            found: Some(End::Step(LastStep {
                                from: u,
                                event: sweep.event,
                                to: v,
                                depth,
                            })),
                            visited: tail,
                        };
                    }
                    Arrival::Dropped => {}
                    Arrival::Enter(v) => {
                        let at = v as usize;
                        if back[at] == 0 {
                            back[at] = u + 1;
                            queue[tail] = v;
                            tail += 1;
                        }
                    }
                }
            }
            let none = take_pairs(counts, &mut opens, sweep.ty, kept, &todo);
            remember(&mut swept, sweep.ty, kept, none);
            offer = next_offer(plan, &swept, node.asker, x.ty, offer);
        }
        remember(&mut spent, x.ty, state, node.asks);
        head += 1;
    }
}
