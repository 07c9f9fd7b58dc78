// The bare questions: is an event authorized from one context on another, and does it make flow from one to another? They ask nothing
// of their caller, and each promise fixes the answer.
#![tactic(auto)]

ghost use Rattle.std.specs.Prelude.{◌≡◌};
ghost use Rattle.base.specs.Questions.{AllYes};
ghost use Rattle.base.specs.Inner.Decides.{Decides};
ghost use Rattle.context.specs.Inner.Coding.{event_code};
ghost use Rattle.bare_questions.specs.Bare.{AskedInRange, bare_questions, AuthorizationAnswer, FlowAnswer, number_of};
ghost use Rattle.bare_questions.specs.Inner.Parts.{AnswersBy};

use access::{authorized, flows};
use base::refusals::Refusal;
use context::{Context, Event};
use policy_check::check;
use policy_image::counts::Counts;

// Question 13.
fn in_range(counts: Counts, x: Context, y: Context, e: Event) -> bool
    ensures { Decides result (AskedInRange counts x y e) }
{
    x.in_range(counts) && y.in_range(counts) && e.in_range(counts)
}

// The policy's questions, then 13, then whether what is asked holds of the event, by its code.
fn ask<F: FnOnce(u32) -> bool>(
    policy: &[u8],
    x: Context,
    y: Context,
    e: Event,
    holds: F,
) -> Result<bool, Refusal>
    requires { AllYes (bare_questions policy.now x y e) → F.pre holds (event_code e) }
    ensures { AnswersBy (F.post holds) policy.now x y e result }
{
    let counts = check(policy)?;
    if !in_range(counts, x, y, e) {
        return Err(Refusal::ContextsAndEvent);
    }
    Ok(holds(e.code()))
}

// Is e authorized from x on y?
pub fn authorization(policy: &[u8], x: Context, y: Context, e: Event) -> Result<bool, Refusal>
    ensures { AuthorizationAnswer policy.now x y e result }
{
    ask(policy, x, y, e, |event| authorized(policy, event, x, y))
}

// Does e make flow from x to y?
pub fn flow(policy: &[u8], x: Context, y: Context, e: Event) -> Result<bool, Refusal>
    ensures { FlowAnswer policy.now x y e result }
{
    ask(policy, x, y, e, |event| flows(policy, event, x, y))
}

// The number that C gets for an answer.
pub fn number(answer: Result<bool, Refusal>) -> u64
    ensures { result ≡ number_of answer }
{
    match answer {
        Ok(yes) => u64::from(yes),
        Err(refusal) => refusal.code(),
    }
}
