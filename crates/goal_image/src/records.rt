// The heads and the records of a goal image.
ghost use Rattle.std.specs.Prelude.{◌≡◌, ◌≤◌, ◌<◌};
ghost use Rattle.chains.specs.Inner.Links.{ShapeOf};
ghost use Rattle.goal_image.specs.Layout.{GoalExact, goal_count, goal_head, next_of, context_record_of, event_record_of};
ghost use Rattle.goal_image.specs.Goal.{goal_of, goal_links};
ghost use Rattle.goal_image.specs.Inner.Reading.{chain_count};

use base::bytes::{u16_at, u32_at};
use chains::Shape;

// How many chains a goal has: σ0 to σ6, γ0 to γ5, σe, γe.
pub const CHAINS: usize = 15;

// The bytes before the records, and those of a record.
pub const HEADER: usize = 34;

pub const RECORD: usize = 8;

// A record of a σ chain, its next aside: 0 in a field means any.
#[derive(Clone, Copy)]
pub struct ContextRecord {
    pub ty: u32,
    pub role: u32,
    pub user: u32,
    pub spare: u32,
}

// A record of a γ chain, its next aside: class 0 means any.
#[derive(Clone, Copy)]
pub struct EventRecord {
    pub class: u32,
    pub spare: u32,
    pub mask: u32,
}

// How many records the goal has.
pub fn record_count(goal: &[u8]) -> usize
    requires { GoalExact goal.now }
    ensures { result ≡ goal_count goal.now }
{
    u16_at(goal, 2) as usize
}

// Where the heads and the records stand.
pub fn goal_shape(goal: &[u8]) -> Shape
    requires { GoalExact goal.now }
    ensures { ShapeOf goal.now (goal_links (goal_of goal.now)) 0 chain_count result }
{
    Shape {
        heads: 4,
        first: 0,
        end: CHAINS,
        records: HEADER,
        stride: RECORD,
        count: record_count(goal),
    }
}

// The head of chain h.
pub fn head_at(goal: &[u8], h: usize) -> usize
    requires { GoalExact goal.now × (h < chain_count) }
    ensures { result ≡ goal_head goal.now h }
{
    chains::head_at(goal, goal_shape(goal), h)
}

// The number of record k's follower on its chain, 0 for none.
pub fn next_at(goal: &[u8], k: usize) -> usize
    requires { GoalExact goal.now × (1 ≤ k) × (k ≤ goal_count goal.now) }
    ensures { result ≡ next_of goal.now k }
{
    chains::next_at(goal, goal_shape(goal), k)
}

// Record k, as one of a σ chain.
pub fn context_at(goal: &[u8], k: usize) -> ContextRecord
    requires { GoalExact goal.now × (1 ≤ k) × (k ≤ goal_count goal.now) }
    ensures { result ≡ context_record_of goal.now k }
{
    let at = HEADER + RECORD * (k - 1);
    ContextRecord {
        ty: u32::from(goal[at + 2]),
        role: u32::from(goal[at + 3]),
        user: u32::from(goal[at + 4]),
        spare: u32::from(goal[at + 5]) + 256 * u16_at(goal, at + 6),
    }
}

// Record k, as one of a γ chain.
pub fn event_at(goal: &[u8], k: usize) -> EventRecord
    requires { GoalExact goal.now × (1 ≤ k) × (k ≤ goal_count goal.now) }
    ensures { result ≡ event_record_of goal.now k }
{
    let at = HEADER + RECORD * (k - 1);
    EventRecord {
        class: u32::from(goal[at + 2]),
        spare: u32::from(goal[at + 3]),
        mask: u32_at(goal, at + 4),
    }
}
