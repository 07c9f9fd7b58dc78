// The calls for C: those of `bare_questions`, `goal_question`, `least_steps`, `join` and `canonical`, with contexts and events by their
// numbers and the answer as one number. None asks anything of its caller; each promise fixes the whole result.
#![tactic(auto)]

ghost use Rattle.std.specs.Prelude.{length};
ghost use Rattle.base.specs.Numbers.{Numbered};
ghost use Rattle.context.specs.Codes.{context_at, event_at};
ghost use Rattle.bare_questions.specs.Bare.{AuthorizationAnswer, FlowAnswer, number_of};
ghost use Rattle.goal_question.specs.GoalQuestion.{GoalPromise, outcome_number};
ghost use Rattle.least_steps.specs.LeastSteps.{StepsPromise, steps_number};
ghost use Rattle.policy_writing.specs.Writing.{writing_number};
ghost use Rattle.join.specs.Join.{JoinPromise};
ghost use Rattle.canonical.specs.Canonical.{CanonicalPromise};

use bare_questions::{authorization, flow, number as answer_number};
use canonical::canonical;
use context::{Context, Event};
use goal_question::goal::{goal_question, number as outcome_number};
use join::join;
use least_steps::{least_steps, number as steps_number};
use policy_writing::answer::number as writing_number;

// The authorization question for C: t1 r1 u1 is the context that acts, t2 r2 u2 the one acted on.
#[unsafe(no_mangle)]
pub extern "C" fn flowgoal_authorized(
    policy: &[u8],
    t1: u32,
    r1: u32,
    u1: u32,
    t2: u32,
    r2: u32,
    u2: u32,
    class: u32,
    permission: u32,
) -> u64
    ensures { Numbered number_of (AuthorizationAnswer policy.now (context_at t1 r1 u1) (context_at t2 r2 u2) (event_at class permission)) result }
{
    let x = Context::new(t1, r1, u1);
    let y = Context::new(t2, r2, u2);
    answer_number(authorization(policy, x, y, Event::new(class, permission)))
}

// The flow question for C: from t1 r1 u1 to t2 r2 u2.
#[unsafe(no_mangle)]
pub extern "C" fn flowgoal_flows(
    policy: &[u8],
    t1: u32,
    r1: u32,
    u1: u32,
    t2: u32,
    r2: u32,
    u2: u32,
    class: u32,
    permission: u32,
) -> u64
    ensures { Numbered number_of (FlowAnswer policy.now (context_at t1 r1 u1) (context_at t2 r2 u2) (event_at class permission)) result }
{
    let x = Context::new(t1, r1, u1);
    let y = Context::new(t2, r2, u2);
    answer_number(flow(policy, x, y, Event::new(class, permission)))
}

// The goal question for C.
#[unsafe(no_mangle)]
pub extern "C" fn flowgoal_check(
    policy: &[u8],
    goal: &[u8],
    work1: &mut [u32],
    work2: &mut [u32],
    path: &mut [u32],
) -> u64
    ensures { Numbered outcome_number (GoalPromise policy.now goal.now (length work1.old) (length work2.old) path.old path.new) result }
{
    outcome_number(goal_question(policy, goal, work1, work2, path))
}

// Least steps for C: from t1 r1 u1 to t2 r2 u2.
#[unsafe(no_mangle)]
pub extern "C" fn flowgoal_least_steps(
    policy: &[u8],
    t1: u32,
    r1: u32,
    u1: u32,
    t2: u32,
    r2: u32,
    u2: u32,
    work1: &mut [u32],
    work2: &mut [u32],
    path: &mut [u32],
) -> u64
    ensures { Numbered steps_number (StepsPromise policy.now (context_at t1 r1 u1) (context_at t2 r2 u2) (length work1.old) (length work2.old) path.old path.new) result }
{
    let x = Context::new(t1, r1, u1);
    let y = Context::new(t2, r2, u2);
    steps_number(least_steps(policy, x, y, work1, work2, path))
}

// The join for C: the maker's policy and the board's, joined into the output.
#[unsafe(no_mangle)]
pub extern "C" fn flowgoal_join(maker: &[u8], board: &[u8], output: &mut [u8]) -> u64
    ensures { Numbered writing_number (JoinPromise maker.now board.now output.old output.new) result }
{
    writing_number(join(maker, board, output))
}

// The canonical image for C: that of the policy, written to the output.
#[unsafe(no_mangle)]
pub extern "C" fn flowgoal_canonical(policy: &[u8], output: &mut [u8]) -> u64
    ensures { Numbered writing_number (CanonicalPromise policy.now output.old output.new) result }
{
    writing_number(canonical(policy, output))
}
