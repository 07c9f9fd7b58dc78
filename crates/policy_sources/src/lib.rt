// Question 14: the sources of a policy's allow records, by a table of its domains, which a search's tables are made with too.
#![tactic(auto)]

ghost use Rattle.base.specs.Inner.Decides.{Decides};
ghost use Rattle.policy_image.specs.Layout.{PolicyExact};
ghost use Rattle.policy_image.specs.Policy.{policy_of};
ghost use Rattle.policy_links.specs.Chains.{LinksRise, ChainsByKind};
ghost use Rattle.policy_sources.specs.Sources.{AllowsFromDomains};
ghost use Rattle.policy_sources.specs.Inner.Domains.{DomainTable};

use base::bits::has_bit;
use policy_image::kinds::Kind;
use policy_links::records::records_of;

// How many entries a table by types has: one more than the largest number, for entry 0.
pub const TYPES: usize = 256;

// For each type, in bit 0, whether it is a domain.
pub fn domain_table(image: &[u8]) -> [u32; TYPES]
    requires { PolicyExact image.now × LinksRise (policy_of image.now) × ChainsByKind (policy_of image.now) }
    ensures { DomainTable (policy_of image.now) result }
{
    let mut domains = [0u32; TYPES];
    for r in records_of(image, Kind::Domain) {
        domains[r.a as usize] = 1;
    }
    domains
}

// Question 14, where questions 1 to 4 have been answered with yes: all domains are known before the first allow record is asked.
pub fn allows_from_domains(image: &[u8]) -> bool
    requires { PolicyExact image.now × LinksRise (policy_of image.now) × ChainsByKind (policy_of image.now) }
    ensures { Decides result (AllowsFromDomains (policy_of image.now)) }
{
    let domains = domain_table(image);
    records_of(image, Kind::Allow).all(|r| has_bit(domains[r.a as usize], 0))
}
