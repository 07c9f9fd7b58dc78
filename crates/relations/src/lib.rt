// The relations of paper 01 over a checked policy image: Γ, α, ρ, μ, the role rule's relation and the ways of flow.
#![tactic(auto)]

pub mod facts;

ghost use Rattle.std.specs.Prelude.{◌≡◌, ◌<◌};
ghost use Rattle.policy_image.specs.Policy.{policy_of};
ghost use Rattle.policy_check.specs.Inner.Sound.{Sound};
ghost use Rattle.policy_sources.specs.Sources.{domain};
ghost use Rattle.relations.specs.Relations.{Γ, flows_as, α, ρ, μ, role_change};
ghost use Rattle.relations.specs.Inner.Facts.{AllowMask};

use crate::facts::{Fact, is_given, united};
use base::bits::has_bit;
use context::Event;
use policy_image::kinds::Kind;

// Whether the type is a domain.
fn is_domain(policy: &[u8], t: u32) -> bool
    requires { Sound policy.now }
    ensures { result ≡ domain (policy_of policy.now) t }
{
    is_given(
        policy,
        Fact {
            kind: Kind::Domain,
            a: t,
            b: 0,
            c: 0,
        },
    )
}

// Whether the event's class has its permission.
pub fn gamma(policy: &[u8], e: Event) -> bool
    requires { Sound policy.now × (e.perm < 32) }
    ensures { result ≡ Γ (policy_of policy.now) e }
{
    let mask = united(
        policy,
        Fact {
            kind: Kind::Permissions,
            a: e.class,
            b: 0,
            c: 0,
        },
    );
    has_bit(mask, e.perm)
}

// Whether the event is write-like (way 1) or read-like (way 2).
pub fn flows_as(policy: &[u8], way: u32, e: Event) -> bool
    requires { Sound policy.now × (e.perm < 32) }
    ensures { result ≡ flows_as (policy_of policy.now) way e }
{
    let mask = united(
        policy,
        Fact {
            kind: Kind::Flow,
            a: e.class,
            b: way,
            c: 0,
        },
    );
    has_bit(mask, e.perm)
}

// The permissions of a class that the allow records give a source type on a target type.
fn allow_mask(policy: &[u8], source: u32, target: u32, class: u32) -> u32
    requires { Sound policy.now }
    ensures { AllowMask (policy_of policy.now) source target class result }
{
    united(
        policy,
        Fact {
            kind: Kind::Allow,
            a: source,
            b: target,
            c: class,
        },
    )
}

pub fn alpha(policy: &[u8], source: u32, target: u32, e: Event) -> bool
    requires { Sound policy.now × (e.perm < 32) }
    ensures { result ≡ α (policy_of policy.now) source target e }
{
    if !is_domain(policy, source) {
        return false;
    }
    if !gamma(policy, e) {
        return false;
    }
    has_bit(allow_mask(policy, source, target, e.class), e.perm)
}

pub fn rho(policy: &[u8], role: u32, t: u32) -> bool
    requires { Sound policy.now }
    ensures { result ≡ ρ (policy_of policy.now) role t }
{
    let f = Fact {
        kind: Kind::RoleType,
        a: role,
        b: t,
        c: 0,
    };
    if is_given(policy, f) {
        return true;
    }
    if role != 1 {
        return false;
    }
    !is_domain(policy, t)
}

pub fn mu(policy: &[u8], user: u32, role: u32) -> bool
    requires { Sound policy.now }
    ensures { result ≡ μ (policy_of policy.now) user role }
{
    let f = Fact {
        kind: Kind::UserRole,
        a: user,
        b: role,
        c: 0,
    };
    if is_given(policy, f) {
        return true;
    }
    role == 1
}

// Whether role r1 may change to role r2.
pub fn role_change(policy: &[u8], r1: u32, r2: u32) -> bool
    requires { Sound policy.now }
    ensures { result ≡ role_change (policy_of policy.now) r1 r2 }
{
    is_given(
        policy,
        Fact {
            kind: Kind::RoleChange,
            a: r1,
            b: r2,
            c: 0,
        },
    )
}
