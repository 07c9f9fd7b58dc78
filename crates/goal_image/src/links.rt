// Question 9: the links of a goal, and its chains.
ghost use Rattle.std.specs.Prelude.{◌≤◌, get_or};
ghost use Rattle.base.specs.Inner.Decides.{Decides};
ghost use Rattle.chains.specs.Inner.Links.{LinksRising};
ghost use Rattle.goal_image.specs.Goal.{goal_of, goal_links};
ghost use Rattle.goal_image.specs.Questions.{OneChainEach};
ghost use Rattle.goal_image.specs.Layout.{GoalExact};
ghost use Rattle.goal_image.specs.Inner.Reading.{chain_count, First};

use crate::records::{CHAINS, goal_shape, next_at, record_count};
use chains::MOST_CHAINS;

// The first chain from h on whose cursor stands at record i.
fn first_at(cursor: [usize; MOST_CHAINS], h: usize, i: usize) -> Option<usize>
    requires { h ≤ chain_count }
    ensures { First (λ k. get_or cursor k 0) h i result }
{
    (h..CHAINS).find(|k| cursor[*k] == i)
}

// Question 9, where the links rise: whether each record lies on exactly one chain, by one pass, in which a cursor for
// each chain stands at the chain's next record.
fn each_on_one(goal: &[u8]) -> bool
    requires { GoalExact goal.now × LinksRising (goal_links (goal_of goal.now)) 0 chain_count }
    ensures { Decides result (OneChainEach (goal_of goal.now)) }
{
    let m = record_count(goal);
    let mut cursor = chains::heads(goal, goal_shape(goal));
    for i in 1..=m {
        let Some(h) = first_at(cursor, 0, i) else {
            return false;
        };
        if first_at(cursor, h + 1, i).is_some() {
            return false;
        }
        cursor[h] = next_at(goal, i);
    }
    true
}

// Question 9.
pub fn one_chain_each(goal: &[u8]) -> bool
    requires { GoalExact goal.now }
    ensures { Decides result (OneChainEach (goal_of goal.now)) }
{
    chains::links_rise(goal, goal_shape(goal)) && each_on_one(goal)
}
