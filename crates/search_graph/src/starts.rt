// Which types may have a context that a search starts from: the others are passed over.
ghost use Rattle.std.specs.Prelude.{false, ◌≡◌};
ghost use Rattle.base.specs.Ranges.{Within};
ghost use Rattle.search_graph.specs.Inner.Starts.{PairsStart, NoStart};
ghost use Rattle.search_graph.specs.Inner.Tasks.{ReadablePlan};

use base::bits::has_bit;
use plan::regions::{NAMED_START, PAIR_SETS_START, ROLES_START, TYPE_SETS_START};
use policy_image::counts::Counts;

// Whether some pair of a role and a user is in σ0 with every type.
pub fn pairs_start(counts: Counts, plan: &[u32]) -> bool
    requires { ReadablePlan counts plan.now }
    ensures { PairsStart counts plan.now result }
{
    let pairs = (counts.roles * counts.users) as usize;
    plan[PAIR_SETS_START..PAIR_SETS_START + pairs]
        .iter()
        .any(|sets| has_bit(*sets, 0))
}

// Whether a context of the type may be a start: some role may hold the type, and it is in σ0, or named with a role or a user, or some pair is.
pub fn may_start(counts: Counts, plan: &[u32], paired: bool, ty: u32) -> bool
    requires { ReadablePlan counts plan.now × PairsStart counts plan.now paired × Within 1 counts.types ty }
    ensures { result ≡ false → NoStart counts plan.now ty }
{
    let own = ty as usize;
    plan[ROLES_START + own] != 0
        && (paired || plan[NAMED_START + own] != 0 || has_bit(plan[TYPE_SETS_START + own], 0))
}
