// The goal question: does a goal hold of a policy? Where it does not, a shortest path that breaks it is shown.
ghost use Rattle.std.specs.Prelude.{◌≡◌, ◌*◌, ◌^◌, ◌≤◌, ◌<◌, length};
ghost use Rattle.base.specs.Inner.Decides.{Decides};
ghost use Rattle.context.specs.Inner.Places.{Countable, context_count};
ghost use Rattle.search_graph.specs.Inner.Tasks.{state_count};
ghost use Rattle.goal_question.specs.Inner.Parts.{Passed, outcome_of};
ghost use Rattle.goal_question.specs.GoalQuestion.{GoalPromise, outcome_number};

use base::refusals::Refusal;
use context::Context;
use goal_answer::find::{Breach, find_by};
use goal_answer::show::show_by;
use goal_image::check::{Legs, check as check_goal};
use plan::goal::put_goal;
use plan::make::make_plan;
use plan::regions::{ENTRIES, RECORD_WORDS};
use plan::rules::put_rules;
use plan_index::extract::ALL_BITS;
use policy_check::check;
use policy_image::counts::Counts;
use search::levels::UNBOUNDED;
use search_graph::monitor::Mode;
use search_graph::task::{Query, Task, state_count};
use search_graph::visits::clear;
use witness::unanswered::Unanswered;

// The answer to the goal question: m is a number of steps.
#[derive(Clone, Copy)]
pub enum Outcome {
    // no path breaks the goal
    Holds,
    // a shortest path that breaks the goal has m steps and breaks order
    Order(u32),
    // a shortest path that breaks the goal has m steps, and none of m steps breaks order
    Events(u32),
}

// Question 11 of one work slice.
fn work_fits(counts: Counts, legs: u32, entries: usize) -> bool
    requires { Countable counts × (legs ≤ 6) × (context_count counts * state_count legs < 2 ^ 26) }
    ensures { Decides result (context_count counts * state_count legs ≤ entries) }
{
    let nodes = Context::count(counts) * state_count(legs);
    nodes as usize <= entries
}

// The answer, by what breaks the goal and the number of steps of the path that is shown.
fn outcome_of(breach: Option<Breach>, shown: Option<u32>) -> Outcome
    ensures { result ≡ outcome_of breach shown }
{
    match (breach, shown) {
        (Some(Breach::Order(_)), Some(m)) => Outcome::Order(m),
        (Some(Breach::Events(_)), Some(m)) => Outcome::Events(m),
        _ => Outcome::Holds,
    }
}

// The answer where all questions before 12 are passed: the plan is made, and the entries of all nodes are cleared, once for all searches.
fn answer(
    policy: &[u8],
    goal: &[u8],
    counts: Counts,
    legs: Legs,
    work1: &mut [u32],
    work2: &mut [u32],
    path: &mut [u32],
) -> Result<Outcome, Unanswered>
    requires { Passed policy.now goal.now counts legs (length work1.old) (length work2.old) }
    ensures { GoalPromise policy.now goal.now (length work1.old) (length work2.old) path.old path.new result }
{
    let mut plan = [0u32; ENTRIES];
    make_plan(policy, counts, &mut plan);
    put_goal(goal, counts, &mut plan);
    let all = [ALL_BITS; RECORD_WORDS];
    put_rules(policy, counts, &all, &mut plan);
    let query = Query {
        policy,
        plan: &plan,
        task: Task {
            counts,
            legs,
            mode: Mode::Events,
        },
    };
    let nodes = (Context::count(counts) * state_count(legs.count)) as usize;
    let back = &mut work2[..nodes];
    clear(back);
    let found = find_by(query, UNBOUNDED, work1, back);
    let shown = show_by(query, found, work1, back, path)?;
    Ok(outcome_of(found.breach, shown))
}

// Does the goal hold of the policy? The work slices are overwritten; of the path slice, just the entries of the path that is shown.
pub fn goal_question(
    policy: &[u8],
    goal: &[u8],
    work1: &mut [u32],
    work2: &mut [u32],
    path: &mut [u32],
) -> Result<Outcome, Unanswered>
    ensures { GoalPromise policy.now goal.now (length work1.old) (length work2.old) path.old path.new result }
{
    let counts = check(policy)?;
    let legs = check_goal(goal, counts)?;
    if !work_fits(counts, legs.count, work1.len()) || !work_fits(counts, legs.count, work2.len()) {
        return Err(Unanswered::Refused(Refusal::WorkSlices));
    }
    answer(policy, goal, counts, legs, work1, work2, path)
}

// The number that C gets for an outcome.
pub fn number(outcome: Result<Outcome, Unanswered>) -> u64
    ensures { result ≡ outcome_number outcome }
{
    match outcome {
        Ok(Outcome::Holds) => 0,
        Ok(Outcome::Order(m)) => 256 * u64::from(m) + 1,
        Ok(Outcome::Events(m)) => 256 * u64::from(m) + 2,
        Err(unanswered) => unanswered.code(),
    }
}
