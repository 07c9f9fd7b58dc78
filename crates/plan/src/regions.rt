// Where each region of a plan starts: the sum of the start and the size of the region before it. The twins of these constants are in
// specs/Inner/Regions.antt, with the functions that read an entry in specs/Inner/Entries.antt. What the entries mean is said in
// specs/Inner/Plan.antt, and in specs/Inner/Ends.antt where a question has two contexts and no goal.
use plan_tables::groups::EVENTS as EVENT_CODES;
use plan_tables::{CLASSES, ROLES as ROLE_NUMBERS, TYPES};

// A step is an event and a type, as a key is a class and a type: TYPE_CODES times the first and the second.
pub use plan_index::codes::TYPE_CODES;

// How many entries the blocks of all types have at most: one for each item of the index.
pub use plan_index::codes::ITEMS as BLOCK_ENTRIES;

// How many words a set of record numbers has.
pub use plan_index::extract::RECORD_WORDS;

// How many pairs of a role and a user a policy has at most, and one more than the most records of a goal.
pub const PAIRS: usize = 225;

pub const RECORDS: usize = 256;

// ---- The part of the policy, made once a call.

// By class: the permissions on which there is a constraint, and process transition.
pub const SPECIAL_START: usize = 0;

// By role: itself, and the roles to which it may change.
pub const CHANGES_START: usize = SPECIAL_START + CLASSES;

// By event: the permissions of its class that no constraint tells from it.
pub const GROUPS_START: usize = CHANGES_START + ROLE_NUMBERS;

// By type: the roles that may hold it.
pub const ROLES_START: usize = GROUPS_START + EVENT_CODES;

// By pair of a role and a user: the role, as a mask, where the user may hold it. A context meets ρ and μ where its type's roles and
// its pair's mask meet.
pub const HOLDERS_START: usize = ROLES_START + TYPES;

// ---- The part of the goal, or of the two contexts of a question that has none, made once for each of these.

// By event: the γ sets that it is in.
pub const EVENT_SETS_START: usize = HOLDERS_START + PAIRS;

// By type, and by pair: the σ sets that records give which name no role and no user, and those which name no type.
pub const TYPE_SETS_START: usize = EVENT_SETS_START + EVENT_CODES;

pub const PAIR_SETS_START: usize = TYPE_SETS_START + TYPES;

// By type: the last record of the goal that names it together with a role or a user.
pub const NAMED_START: usize = PAIR_SETS_START + PAIRS;

// By record of that kind: the one before it that names the same type, the σ chains that it is on, its role, and its user.
pub const LINKS_START: usize = NAMED_START + TYPES;

pub const MARKS_START: usize = LINKS_START + RECORDS;

pub const RECORD_ROLES_START: usize = MARKS_START + RECORDS;

pub const RECORD_USERS_START: usize = RECORD_ROLES_START + RECORDS;

// By event: the permissions of its class that a search cannot tell from it.
pub const ALIKE_START: usize = RECORD_USERS_START + RECORDS;

// ---- The part of the rules, made once for each set of allow records that count.

// The set: a bit for each record number.
pub const COUNTED_START: usize = ALIKE_START + EVENT_CODES;

// By type: where its block of entries starts. One more for the end of the last.
pub const FIRST_START: usize = COUNTED_START + RECORD_WORDS;

// By entry: its class and other type, what flows out to that type, and what flows out by its reading.
pub const KEYS_START: usize = FIRST_START + TYPES + 1;

pub const WRITES_START: usize = KEYS_START + BLOCK_ENTRIES;

pub const READS_START: usize = WRITES_START + BLOCK_ENTRIES;

// By type: the special permissions that the entries of its block have, united.
pub const TYPE_SPECIAL_START: usize = READS_START + BLOCK_ENTRIES;

// By entry: of its permissions, both ways, those that stand for the others.
pub const LEADS_START: usize = TYPE_SPECIAL_START + TYPES;

// How many entries a plan has.
pub const ENTRIES: usize = LEADS_START + BLOCK_ENTRIES;
