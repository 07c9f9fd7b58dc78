// The first step that a search asks from a node, and where none is remembered to be.
ghost use Rattle.std.specs.Prelude.{◌<◌};
ghost use Rattle.search_steps.specs.Inner.Nearest.{state_codes, StepBlockOf};
ghost use Rattle.search_memory.specs.Inner.Memory.{Recalls, Recalled, FirstFrom};

use crate::remember;
use crate::turn::Node;
use base::bits::has_member;
use plan_tables::TYPES;
use search_steps::nearest::{NONE, Offer};
use search_steps::offers::first_offer;

// The first step to ask from the type that is not closed, where steps are asked at all. What is closed stays so, for every context of the type:
// where there is no step, none is looked for again from the type in the state.
pub fn first_step(plan: &[u32], swept: &[u64; TYPES], shut: &mut [u64; TYPES], node: Node) -> Offer
    requires { (node.asker.state < state_codes) × StepBlockOf plan.now node.x.ty × Recalls plan.now swept.now shut.old node.asker node.x.ty }
    ensures { FirstFrom plan.now swept.now node result × Recalled plan.now swept.now shut.old shut.new node.asker node.x.ty }
{
    let none = Offer {
        start: 0,
        entry: 0,
        step: NONE,
    };
    let a = node.asker;
    let own = node.x.ty;
    if has_member(shut[own as usize], a.state) {
        return none;
    }
    if !node.asks {
        return none;
    }
    let offer = first_offer(plan, swept, a, own);
    if offer.step < NONE {
        return offer;
    }
    remember(shut, own, a.state, true);
    offer
}
