// The counts of a policy, and questions 1 and 2.
ghost use Rattle.base.specs.Inner.Decides.{Decides};
ghost use Rattle.policy_image.specs.Counts.{CountsInRange};
ghost use Rattle.policy_image.specs.Inner.Answer.{CountsAnswer};

use base::bytes::u16_at;
use base::ranges::within;
use base::refusals::Refusal;

// The bytes before the records, those of a record, and how many records there may be.
pub const HEADER: usize = 24;

pub const RECORD: usize = 12;

pub const MOST_RECORDS: usize = 4095;

// How many types, roles, users, classes and records a policy has.
#[derive(Clone, Copy)]
pub struct Counts {
    pub types: u32,
    pub roles: u32,
    pub users: u32,
    pub classes: u32,
    pub records: usize,
}

// Question 2.
fn counts_in_range(c: Counts) -> bool
    ensures { Decides result (CountsInRange c) }
{
    within(1, 255, c.types)
        && within(1, 15, c.roles)
        && within(1, 15, c.users)
        && within(1, 31, c.classes)
}

// The counts of an image that passes questions 1 and 2.
pub fn check_counts(image: &[u8]) -> Result<Counts, Refusal>
    ensures { CountsAnswer image.now result }
{
    if image.len() < HEADER {
        return Err(Refusal::PolicyLength);
    }
    let n = u16_at(image, 4) as usize;
    if MOST_RECORDS < n {
        return Err(Refusal::PolicyLength);
    }
    if image.len() != HEADER + RECORD * n {
        return Err(Refusal::PolicyLength);
    }
    let counts = Counts {
        types: u32::from(image[0]),
        roles: u32::from(image[1]),
        users: u32::from(image[2]),
        classes: u32::from(image[3]),
        records: n,
    };
    if counts_in_range(counts) {
        Ok(counts)
    } else {
        Err(Refusal::PolicyCounts)
    }
}
