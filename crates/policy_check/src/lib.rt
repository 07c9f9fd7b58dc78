// Questions 1 to 6 and 14 of a policy image, in order.
#![tactic(auto)]

ghost use Rattle.policy_check.specs.Inner.Answer.{PolicyAnswer};

use base::refusals::Refusal;
use policy_expressions::nodes_in_order;
use policy_fields::fields_in_range;
use policy_image::counts::{Counts, check_counts};
use policy_links::{chains_by_kind, links_rise};
use policy_sources::allows_from_domains;

// The image's counts, or the refusal of the first question whose answer is no.
pub fn check(image: &[u8]) -> Result<Counts, Refusal>
    ensures { PolicyAnswer image.now result }
{
    let counts = check_counts(image)?;
    if !links_rise(image) {
        return Err(Refusal::PolicyLinks);
    }
    if !chains_by_kind(image, counts) {
        return Err(Refusal::PolicyChains);
    }
    if !fields_in_range(image, counts) {
        return Err(Refusal::PolicyFields);
    }
    if !nodes_in_order(image, counts) {
        return Err(Refusal::PolicyNodes);
    }
    if !allows_from_domains(image) {
        return Err(Refusal::PolicySources);
    }
    Ok(counts)
}
