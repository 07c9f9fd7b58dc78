// Questions 3 and 4: the links of a policy, and its chains.
#![tactic(auto)]

ghost use Rattle.std.specs.Prelude.{◌≡◌, ℕ, ◌≤◌, get_or};
ghost use Rattle.base.specs.Inner.Decides.{Decides};
ghost use Rattle.policy_image.specs.Layout.{PolicyExact};
ghost use Rattle.policy_image.specs.Policy.{policy_of};
ghost use Rattle.policy_image.specs.Inner.Reading.{Counted};
ghost use Rattle.policy_links.specs.Chains.{LinksRise, ChainsByKind};

pub mod records;

use chains::MOST_CHAINS;
use policy_image::counts::Counts;
use policy_image::records::{policy_shape, record_at};

// Question 3.
pub fn links_rise(image: &[u8]) -> bool
    requires { PolicyExact image.now }
    ensures { Decides result (LinksRise (policy_of image.now)) }
{
    chains::links_rise(image, policy_shape(image))
}

// Whether every cursor is 0, so that no chain goes on.
fn all_zero(c: [usize; MOST_CHAINS]) -> bool
    ensures { Decides result ((k : ℕ) → 1 ≤ k → k ≤ 9 → get_or c k 0 ≡ 0) }
{
    c[1..10].iter().all(|head| *head == 0)
}

// Question 4, where question 3 has been answered with yes: one pass, with a cursor on each chain that stands at the
// chain's next record. Links rise, so record i is on the chain of its kind exactly when that chain's cursor stands at it.
pub fn chains_by_kind(image: &[u8], counts: Counts) -> bool
    requires { Counted image.now counts × LinksRise (policy_of image.now) }
    ensures { Decides result (ChainsByKind (policy_of image.now)) }
{
    let mut cursor = chains::heads(image, policy_shape(image));
    for i in 1..=counts.records {
        let r = record_at(image, i);
        let k = r.kind as usize;
        match k {
            1..=9 => {
                if cursor[k] != i {
                    return false;
                }
                cursor[k] = r.next;
            }
            _ => {
                return false;
            }
        }
    }
    all_zero(cursor)
}
