// Contexts and events, and the numbers that stand for them.
#![tactic(auto)]

pub mod places;

ghost use Rattle.std.specs.Prelude.{◌≡◌, ◌<◌};
ghost use Rattle.base.specs.Inner.Decides.{Decides};
ghost use Rattle.context.specs.Codes.{context_at, event_at, context_of, event_of, is_transition};
ghost use Rattle.context.specs.Inner.Coding.{context_code, event_code, Coded};
ghost use Rattle.context.specs.Ranges.{ContextInRange, EventInRange};
ghost use Rattle.context.specs.Inner.Places.{Countable, context_count, context_index, context_at_index};

use base::ranges::within;
use policy_image::counts::Counts;

// A security context: a type, a role and a user, each from 1.
#[derive(Clone, Copy)]
pub struct Context {
    pub ty: u32,
    pub role: u32,
    pub user: u32,
}

impl Context {
    pub fn new(ty: u32, role: u32, user: u32) -> Context
        ensures { result ≡ context_at ty role user }
    {
        Context { ty, role, user }
    }

    // The number that stands for the context in a path.
    pub fn code(self) -> u32
        requires { (self.ty < 65536) × (self.role < 16) × (self.user < 16) }
        ensures { result ≡ context_code self }
    {
        256 * self.ty + 16 * self.role + self.user
    }

    pub fn decode(code: u32) -> Context
        ensures { result ≡ context_of code }
    {
        Context {
            ty: code / 256,
            role: code / 16 % 16,
            user: code % 16,
        }
    }

    // Whether type, role and user lie each from 1 to the policy's count.
    pub fn in_range(self, counts: Counts) -> bool
        ensures { Decides result (ContextInRange counts self) }
    {
        within(1, counts.types, self.ty)
            && within(1, counts.roles, self.role)
            && within(1, counts.users, self.user)
    }

    // How many contexts are in range.
    pub fn count(counts: Counts) -> u32
        requires { Countable counts }
        ensures { result ≡ context_count counts }
    {
        counts.types * counts.roles * counts.users
    }

    // The context's place among those in range, from 0: by type, then role, then user.
    pub fn index(self, counts: Counts) -> u32
        requires { ContextInRange counts self × Countable counts }
        ensures { result ≡ context_index counts self }
    {
        ((self.ty - 1) * counts.roles + (self.role - 1)) * counts.users + (self.user - 1)
    }

    // The context at a place.
    pub fn at(index: u32, counts: Counts) -> Context
        requires { Countable counts × (index < context_count counts) }
        ensures { result ≡ context_at_index counts index }
    {
        let rest = index / counts.users;
        Context {
            ty: rest / counts.roles + 1,
            role: rest % counts.roles + 1,
            user: index % counts.users + 1,
        }
    }
}

// An event: a permission of a class.
#[derive(Clone, Copy)]
pub struct Event {
    pub class: u32,
    pub perm: u32,
}

impl Event {
    // Process transition.
    pub const TRANSITION: Event = Event { class: 1, perm: 0 };

    // The number that stands for it, as `code` gives it.
    pub const TRANSITION_CODE: u32 = 32 * Event::TRANSITION.class + Event::TRANSITION.perm;

    pub fn new(class: u32, perm: u32) -> Event
        ensures { result ≡ event_at class perm }
    {
        Event { class, perm }
    }

    // The number that stands for the event in a path.
    pub fn code(self) -> u32
        requires { Coded self }
        ensures { result ≡ event_code self }
    {
        32 * self.class + self.perm
    }

    pub fn decode(code: u32) -> Event
        ensures { result ≡ event_of code }
    {
        Event {
            class: code / 32,
            perm: code % 32,
        }
    }

    // Whether the class is from 1 to the policy's count and the permission from 0 to 31.
    pub fn in_range(self, counts: Counts) -> bool
        ensures { Decides result (EventInRange counts self) }
    {
        within(1, counts.classes, self.class) && within(0, 31, self.perm)
    }

    pub fn is_transition(self) -> bool
        requires { Coded self }
        ensures { result ≡ is_transition self }
    {
        self.code() == Event::TRANSITION.code()
    }
}
