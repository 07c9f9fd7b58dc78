// Least steps between two contexts: how near is one to the other? It asks nothing of its caller, and its promise fixes the answer and the
// count.
#![tactic(auto)]

ghost use Rattle.std.specs.Prelude.{◌≡◌, length};
ghost use Rattle.base.specs.Inner.Decides.{Decides};
ghost use Rattle.context.specs.Inner.Places.{Countable};
ghost use Rattle.least_steps.specs.LeastSteps.{BothInRange, StepsPromise, steps_number};
ghost use Rattle.least_steps.specs.Inner.Parts.{EntryForEach, StepsPassed};

use base::refusals::Refusal;
use context::Context;
use goal_image::check::Legs;
use plan::ends::put_ends;
use plan::make::make_plan;
use plan::regions::{ENTRIES, RECORD_WORDS};
use plan::rules::put_rules;
use plan_index::extract::ALL_BITS;
use policy_check::check;
use policy_image::counts::Counts;
use search::levels::UNBOUNDED;
use search::search;
use search_graph::monitor::Mode;
use search_graph::task::{Query, Task};
use search_graph::visits::clear;
use witness::path::show_found;
use witness::unanswered::Unanswered;

// Question 13.
fn in_range(counts: Counts, x: Context, y: Context) -> bool
    ensures { Decides result (BothInRange counts x y) }
{
    x.in_range(counts) && y.in_range(counts)
}

// Question 11: each work slice has an entry for each context.
fn work_fits(counts: Counts, work1: usize, work2: usize) -> bool
    requires { Countable counts }
    ensures { Decides result (EntryForEach counts work1 work2) }
{
    let entries = Context::count(counts) as usize;
    entries <= work1 && entries <= work2
}

// The answer where no question refuses: a search from x, which σ0 has alone, to y, which σ1 has alone.
fn answer(
    policy: &[u8],
    counts: Counts,
    x: Context,
    y: Context,
    work1: &mut [u32],
    work2: &mut [u32],
    path: &mut [u32],
) -> Result<Option<u32>, Unanswered>
    requires { StepsPassed policy.now x y counts (length work1.old) (length work2.old) }
    ensures { StepsPromise policy.now x y (length work1.old) (length work2.old) path.old path.new result }
{
    let mut plan = [0u32; ENTRIES];
    make_plan(policy, counts, &mut plan);
    put_ends(x, y, counts, &mut plan);
    let all = [ALL_BITS; RECORD_WORDS];
    put_rules(policy, counts, &all, &mut plan);
    let legs = Legs {
        count: 1,
        repeated: 0,
    };
    let query = Query {
        policy,
        plan: &plan,
        task: Task {
            counts,
            legs,
            mode: Mode::Any,
        },
    };
    let nodes = Context::count(counts) as usize;
    let back = &mut work2[..nodes];
    clear(back);
    let found = search(query, UNBOUNDED, work1, back).found;
    let shown = show_found(query, found, back, path)?;
    Ok(shown)
}

// How few steps lead from x to y? None where no path does. The work slices are overwritten; of the path slice, just the
// entries of the path that is shown.
pub fn least_steps(
    policy: &[u8],
    x: Context,
    y: Context,
    work1: &mut [u32],
    work2: &mut [u32],
    path: &mut [u32],
) -> Result<Option<u32>, Unanswered>
    ensures { StepsPromise policy.now x y (length work1.old) (length work2.old) path.old path.new result }
{
    let counts = check(policy)?;
    if !in_range(counts, x, y) {
        return Err(Unanswered::Refused(Refusal::ContextsAndEvent));
    }
    if !work_fits(counts, work1.len(), work2.len()) {
        return Err(Unanswered::Refused(Refusal::WorkSlices));
    }
    answer(policy, counts, x, y, work1, work2, path)
}

// The number that C gets for an answer.
pub fn number(steps: Result<Option<u32>, Unanswered>) -> u64
    ensures { result ≡ steps_number steps }
{
    match steps {
        Ok(None) => 0,
        Ok(Some(m)) => 256 * u64::from(m) + 1,
        Err(unanswered) => unanswered.code(),
    }
}
