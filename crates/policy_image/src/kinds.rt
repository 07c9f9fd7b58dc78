// The kinds of records, and the operators of expression nodes, by the numbers that an image has for them.
ghost use Rattle.std.specs.Prelude.{◌≡◌, MatchOption};
ghost use Rattle.base.specs.Ranges.{Within};
ghost use Rattle.policy_image.specs.Inner.Kinds.{kind_number};

// The kinds of records, each with its chain.
#[derive(Clone, Copy, Debug, PartialEq, Eq)]
pub enum Kind {
    Domain = 1,
    Permissions,
    Flow,
    Allow,
    RoleType,
    UserRole,
    RoleChange,
    Constraint,
    Node,
}

impl Kind {
    // All kinds, by their numbers.
    pub const ALL: [Kind; 9] = [
        Kind::Domain,
        Kind::Permissions,
        Kind::Flow,
        Kind::Allow,
        Kind::RoleType,
        Kind::UserRole,
        Kind::RoleChange,
        Kind::Constraint,
        Kind::Node,
    ];

    // The number that an image has for the kind.
    #[inline]
    pub fn number(self) -> u32
        ensures { result ≡ kind_number self }
    {
        self as u32
    }

    // The kind that has a number, if any has.
    #[inline]
    pub fn of(number: u32) -> Option<Kind>
        ensures { MatchOption result (Within 1 9 number → ⊥) (λ k. number ≡ kind_number k) }
    {
        match number {
            1 => Some(Kind::Domain),
            2 => Some(Kind::Permissions),
            3 => Some(Kind::Flow),
            4 => Some(Kind::Allow),
            5 => Some(Kind::RoleType),
            6 => Some(Kind::UserRole),
            7 => Some(Kind::RoleChange),
            8 => Some(Kind::Constraint),
            9 => Some(Kind::Node),
            _ => None,
        }
    }
}

// What b of a flow record says: the permissions are write-like, read-like, or both.
pub const WRITE_LIKE: u32 = 1;

pub const READ_LIKE: u32 = 2;

pub const BOTH: u32 = 3;

// Operators of a node: on the values of its children,
pub const NOT: u32 = 1;

pub const AND: u32 = 2;

pub const OR: u32 = 3;

// on both contexts,
pub const SAME_TYPE: u32 = 4;

pub const SAME_ROLE: u32 = 5;

pub const SAME_USER: u32 = 6;

// and on one of them, 1 being the process's and 2 the resource's, with a number.
pub const TYPE_1: u32 = 7;

pub const TYPE_2: u32 = 8;

pub const ROLE_1: u32 = 9;

pub const ROLE_2: u32 = 10;

pub const USER_1: u32 = 11;

pub const USER_2: u32 = 12;
