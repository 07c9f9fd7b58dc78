// Authorization and flow over a checked policy image. An event is given by its code, as a path has it.
#![tactic(auto)]

ghost use Rattle.std.specs.Prelude.{◌≡◌, ◌&&◌, ◌<◌};
ghost use Rattle.policy_image.specs.Policy.{policy_of};
ghost use Rattle.policy_check.specs.Inner.Sound.{Sound};
ghost use Rattle.context.specs.Codes.{event_of};
ghost use Rattle.context.specs.Inner.Coding.{Coded};
ghost use Rattle.relations.specs.Relations.{flows_as};
ghost use Rattle.access.specs.Authorization.{χ, role_rule, clauses_of, all_hold, authorized as authorizedOf, flow};

use constraints::constraints_hold;
use context::{Context, Event};
use policy_image::kinds::{READ_LIKE, WRITE_LIKE};
use relations::{alpha, flows_as, gamma, mu, rho, role_change};

// The value of each clause of the authorization formula, in its order: 1 for the context that acts, 2 for the other.
#[derive(Clone, Copy)]
pub struct Clauses {
    pub alpha: bool,
    pub rho1: bool,
    pub rho2: bool,
    pub mu1: bool,
    pub mu2: bool,
    pub chi: bool,
    pub rule: bool,
}

// Whether an action is authorized, from the values of the clauses.
pub fn decide(k: Clauses) -> bool
    ensures { result ≡ all_hold k }
{
    k.alpha && k.rho1 && k.rho2 && k.mu1 && k.mu2 && k.chi && k.rule
}

// Whether the event is in Γ and every constraint on it is true.
fn chi(policy: &[u8], e: Event, x: Context, y: Context) -> bool
    requires { Sound policy.now × (e.perm < 32) }
    ensures { result ≡ χ (policy_of policy.now) e x y }
{
    gamma(policy, e) && constraints_hold(policy, e, x, y)
}

// Whether the role stays or may change, where the event is process transition.
fn role_rule(policy: &[u8], e: Event, x: Context, y: Context) -> bool
    requires { Sound policy.now × Coded e }
    ensures { result ≡ role_rule (policy_of policy.now) e x y }
{
    if !e.is_transition() {
        return true;
    }
    x.role == y.role || role_change(policy, x.role, y.role)
}

// The value of each clause for the action e of x on y.
fn values(policy: &[u8], e: Event, x: Context, y: Context) -> Clauses
    requires { Sound policy.now × Coded e }
    ensures { result ≡ clauses_of (policy_of policy.now) e x y }
{
    Clauses {
        alpha: alpha(policy, x.ty, y.ty, e),
        rho1: rho(policy, x.role, x.ty),
        rho2: rho(policy, y.role, y.ty),
        mu1: mu(policy, x.user, x.role),
        mu2: mu(policy, y.user, y.role),
        chi: chi(policy, e, x, y),
        rule: role_rule(policy, e, x, y),
    }
}

// Whether the event is authorized from x on y.
pub fn authorized(policy: &[u8], event: u32, x: Context, y: Context) -> bool
    requires { Sound policy.now × (event < 2097152) }
    ensures { result ≡ authorizedOf (policy_of policy.now) (event_of event) x y }
{
    decide(values(policy, Event::decode(event), x, y))
}

// Whether the event flows the given way, 1 write-like or 2 read-like, and is authorized from x on y.
fn acts(policy: &[u8], way: u32, event: u32, x: Context, y: Context) -> bool
    requires { Sound policy.now × (event < 2097152) }
    ensures { result ≡ (flows_as (policy_of policy.now) way (event_of event) && authorizedOf (policy_of policy.now) (event_of event) x y) }
{
    flows_as(policy, way, Event::decode(event)) && authorized(policy, event, x, y)
}

// Whether there is flow from x to y by the event.
pub fn flows(policy: &[u8], event: u32, x: Context, y: Context) -> bool
    requires { Sound policy.now × (event < 2097152) }
    ensures { result ≡ flow (policy_of policy.now) (event_of event) x y }
{
    acts(policy, WRITE_LIKE, event, x, y) || acts(policy, READ_LIKE, event, y, x)
}
