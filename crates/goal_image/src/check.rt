// Questions 7 to 10 of a goal image, in order.
ghost use Rattle.std.specs.Prelude.{◌≡◌, ℕ, ◌≤◌, ◌<◌};
ghost use Rattle.base.specs.Inner.Decides.{Decides};
ghost use Rattle.goal_image.specs.Layout.{GoalExact, goal_head};
ghost use Rattle.goal_image.specs.Goal.{goal_of};
ghost use Rattle.goal_image.specs.Inner.Reading.{chain_count, Opened};
ghost use Rattle.goal_image.specs.Questions.{LegsInRange};
ghost use Rattle.goal_image.specs.Inner.Answer.{GoalAnswer};

use crate::fields::fields_fit;
use crate::links::one_chain_each;
use crate::records::{HEADER, RECORD, head_at};
use base::bytes::u16_at;
use base::ranges::within;
use base::refusals::Refusal;
use policy_image::counts::Counts;

// The legs of a goal: how many, and which of them are repeated (bit i for leg i).
#[derive(Clone, Copy)]
pub struct Legs {
    pub count: u32,
    pub repeated: u32,
}

// Question 7.
#[tactic(auto, unfolding(crate::specs::Layout::goal_count))]
fn is_exact(goal: &[u8]) -> bool
    ensures { Decides result (GoalExact goal.now) }
{
    if goal.len() < HEADER {
        return false;
    }
    let m = u16_at(goal, 2) as usize;
    m <= 255 && goal.len() == HEADER + RECORD * m
}

// The legs, as they stand in the bytes.
fn legs_at(goal: &[u8]) -> Legs
    requires { GoalExact goal.now }
    ensures { Opened goal.now result }
{
    Legs {
        count: u32::from(goal[0]),
        repeated: u32::from(goal[1]),
    }
}

// Whether the heads of the chains from a to below b are 0.
fn heads_are_zero(goal: &[u8], a: usize, b: usize) -> bool
    requires { GoalExact goal.now × (b ≤ chain_count) }
    ensures { Decides result ((h : ℕ) → a ≤ h → h < b → goal_head goal.now h ≡ 0) }
{
    (a..b).all(|h| head_at(goal, h) == 0)
}

// Question 8.
fn legs_in_range(goal: &[u8], legs: Legs) -> bool
    requires { Opened goal.now legs }
    ensures { Decides result (LegsInRange (goal_of goal.now)) }
{
    let n = legs.count;
    within(1, 6, n)
        && legs.repeated >> n == 0
        && heads_are_zero(goal, n as usize + 1, 7)
        && heads_are_zero(goal, n as usize + 7, 13)
}

// The goal's legs, or the refusal of the first question whose answer is no.
pub fn check(goal: &[u8], counts: Counts) -> Result<Legs, Refusal>
    ensures { GoalAnswer counts goal.now result }
{
    if !is_exact(goal) {
        return Err(Refusal::GoalLength);
    }
    let legs = legs_at(goal);
    if !legs_in_range(goal, legs) {
        return Err(Refusal::GoalLegs);
    }
    if !one_chain_each(goal) {
        return Err(Refusal::GoalChains);
    }
    if !fields_fit(goal, counts) {
        return Err(Refusal::GoalFields);
    }
    Ok(legs)
}
