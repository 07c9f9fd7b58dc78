// What a call makes of a checked policy once: tables that say in one step what the records say in many. An entry is a set of 32
// numbers, one to a bit.
#![tactic(auto)]

pub mod gather;
pub mod groups;

ghost use Rattle.std.specs.Prelude.{not, ◌&&◌, ◌≡◌, ℕ, eqb};
ghost use Rattle.base.specs.Bits.{bit};
ghost use Rattle.policy_image.specs.Policy.{policy_of};
ghost use Rattle.policy_check.specs.Inner.Sound.{Sound};
ghost use Rattle.plan_tables.specs.Inner.Tables.{GammaMasks, FlowMasks, ConstraintMasks, ObjectRoles, RoleTable, UserTable, OwnRoles, RoleChanges};

use crate::gather::gather;
use base::bits::{has_bit, with_bit};
use policy_image::kinds::Kind;
use policy_sources::domain_table;
use std::array;

// How many entries a table by classes, by types, by roles or users has: one more than the largest number, for entry 0.
pub use policy_sources::TYPES;

pub const CLASSES: usize = 32;

pub const ROLES: usize = 16;

pub const USERS: usize = 16;

// The set of role 1 alone, which holds what is no domain and is every user's.
const OBJECT_ROLE: u32 = 2;

// For each class its permissions.
pub fn gamma_masks(policy: &[u8]) -> [u32; CLASSES]
    requires { Sound policy.now }
    ensures { GammaMasks (policy_of policy.now) result }
{
    let mut masks = [0u32; CLASSES];
    gather(policy, Kind::Permissions, 0, &mut masks);
    masks
}

// For each class its permissions that are write-like (`WRITE_LIKE`) or read-like (`READ_LIKE`).
pub fn flow_masks(policy: &[u8], way: u32) -> [u32; CLASSES]
    requires { Sound policy.now }
    ensures { FlowMasks (policy_of policy.now) way result }
{
    let mut masks = [0u32; CLASSES];
    gather(policy, Kind::Flow, way, &mut masks);
    masks
}

// For each class its permissions on which there is a constraint.
pub fn constraint_masks(policy: &[u8]) -> [u32; CLASSES]
    requires { Sound policy.now }
    ensures { ConstraintMasks (policy_of policy.now) result }
{
    let mut masks = [0u32; CLASSES];
    gather(policy, Kind::Constraint, 0, &mut masks);
    masks
}

// The roles that hold a type with no record: role 1, where the type is no domain.
fn object_roles_of(domain: bool) -> u32
    ensures { (role : ℕ) → bit result role ≡ (eqb role 1 && not domain) }
{
    if domain { 0 } else { OBJECT_ROLE }
}

// The same for each type.
fn object_roles(domains: &[u32; TYPES]) -> [u32; TYPES]
    ensures { ObjectRoles domains.now result }
{
    array::from_fn(|t| object_roles_of(has_bit(domains[t], 0)))
}

// For each type the roles that may hold it.
pub fn role_table(policy: &[u8]) -> [u32; TYPES]
    requires { Sound policy.now }
    ensures { RoleTable (policy_of policy.now) result }
{
    let domains = domain_table(policy);
    let mut roles = object_roles(&domains);
    gather(policy, Kind::RoleType, 0, &mut roles);
    roles
}

// For each user the roles that it may hold.
pub fn user_table(policy: &[u8]) -> [u32; USERS]
    requires { Sound policy.now }
    ensures { UserTable (policy_of policy.now) result }
{
    let mut roles = [OBJECT_ROLE; USERS];
    gather(policy, Kind::UserRole, 0, &mut roles);
    roles
}

// For each role that role alone.
fn own_roles() -> [u32; ROLES]
    ensures { OwnRoles result }
{
    array::from_fn(|role| with_bit(0, role as u32))
}

// For each role that role and those to which it may change.
pub fn role_changes(policy: &[u8]) -> [u32; ROLES]
    requires { Sound policy.now }
    ensures { RoleChanges (policy_of policy.now) result }
{
    let mut changes = own_roles();
    gather(policy, Kind::RoleChange, 0, &mut changes);
    changes
}
