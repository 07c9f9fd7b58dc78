// The steps that a context may take, by event and type of the target.
ghost use Rattle.std.specs.Prelude.{◌+◌, ◌<◌};
ghost use Rattle.search_steps.specs.Inner.Nearest.{state_codes, StepBlockOf, ResumesOf, NearestOf};

use crate::nearest::{Asker, NONE, Offer, nearest, nearest_after};
use plan::regions::{FIRST_START, TYPE_SPECIAL_START};

// The first step from the type after that of an offer that is not closed.
pub fn next_offer(plan: &[u32], swept: &[u64; 256], a: Asker, own: u32, offer: Offer) -> Offer
    requires { (a.state < state_codes) × StepBlockOf plan.now own × ResumesOf plan.now own offer }
    ensures { NearestOf plan.now swept.now a own (offer.step + 1) result }
{
    let ty = own as usize;
    let lo = plan[FIRST_START + ty] as usize;
    let stop = plan[FIRST_START + (ty + 1)] as usize;
    nearest_after(plan, swept, a, lo, stop, offer)
}

// The first step from the type that is not closed: none where only special steps are asked and no entry has one.
pub fn first_offer(plan: &[u32], swept: &[u64; 256], a: Asker, own: u32) -> Offer
    requires { (a.state < state_codes) × StepBlockOf plan.now own }
    ensures { NearestOf plan.now swept.now a own 0 result }
{
    let ty = own as usize;
    let lo = plan[FIRST_START + ty] as usize;
    if a.spent {
        if plan[TYPE_SPECIAL_START + ty] == 0 {
            return Offer {
                start: lo,
                entry: lo,
                step: NONE,
            };
        }
    }
    let stop = plan[FIRST_START + (ty + 1)] as usize;
    nearest(plan, swept, a, lo, stop, lo, 0)
}
