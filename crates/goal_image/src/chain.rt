// The records of one chain of a goal, as an iterator over their numbers.
ghost use Rattle.std.specs.Prelude.{◌≡◌, ◌≤◌, ◌<◌};
ghost use Rattle.goal_image.specs.Layout.{GoalExact, goal_count, goal_head};
ghost use Rattle.goal_image.specs.Goal.{goal_of, goal_links};
ghost use Rattle.goal_image.specs.Questions.{OneChainEach};
ghost use Rattle.goal_image.specs.Inner.Reading.{chain_count};
ghost use Rattle.chains.specs.Inner.Links.{NextsRising};

use crate::records::{head_at, next_at};

// The records of a chain from one of them on: next is its number, or 0 at the chain's end.
#[derive(Drop)]
pub struct Chain<'a> {
    goal: &'a [u8],
    next: usize,
    ghost exact: { GoalExact goal.now },
    ghost most: { next ≤ goal_count goal.now },
    ghost rise: { ∥ NextsRising (goal_links (goal_of goal.now)) ∥₁ },
}

// The records on chain h.
pub fn records_on(goal: &[u8], h: usize) -> Chain<'_>
    requires { GoalExact goal.now × OneChainEach (goal_of goal.now) × (h < chain_count) }
    ensures { (result.goal.now ≡ goal.now) × (result.next ≡ goal_head goal.now h) }
{
    Chain {
        goal,
        next: head_at(goal, h),
    }
}

impl Iterator for Chain<'_> {
    ghost use Rattle.goal_image.specs.Inner.Walking.{GivesNumber, numbers_left};

    type Item = usize;

    ghost next_gives = { GivesNumber };

    ghost remaining = { numbers_left };

    #[inline]
    fn next(&mut self) -> Option<usize> {
        if self.next == 0 {
            return None;
        }
        let i = self.next;
        self.next = next_at(self.goal, i);
        Some(i)
    }
}
