// The records of one kind, as an iterator along their chain.
ghost use Rattle.std.specs.Prelude.{◌≡◌, ◌≤◌};
ghost use Rattle.policy_image.specs.Inner.Kinds.{kind_number};
ghost use Rattle.policy_image.specs.Layout.{PolicyExact, record_count, policy_head};
ghost use Rattle.policy_image.specs.Policy.{policy_of};
ghost use Rattle.policy_links.specs.Chains.{LinksRise, NextsRise};

use policy_image::kinds::Kind;
use policy_image::records::{Record, head_at, record_at};

// The records of a chain from one of them on: next is its number, or 0 at the chain's end.
#[derive(Drop)]
pub struct Records<'a> {
    image: &'a [u8],
    next: usize,
    ghost exact: { PolicyExact image.now },
    ghost most: { next ≤ record_count image.now },
    ghost rise: { ∥ NextsRise (policy_of image.now) ∥₁ },
}

// The records of a kind, which are those of its chain where questions 3 and 4 have been answered with yes.
pub fn records_of(image: &[u8], kind: Kind) -> Records<'_>
    requires { PolicyExact image.now × LinksRise (policy_of image.now) }
    ensures { (result.image.now ≡ image.now) × (result.next ≡ policy_head image.now (kind_number kind)) }
{
    Records {
        image,
        next: head_at(image, kind),
    }
}

impl<'a> Records<'a> {
    // The same records, each with its number.
    pub fn numbered(self) -> Numbered<'a>
        ensures { result.records ≡ self.entry }
    {
        Numbered { records: self }
    }
}

impl Iterator for Records<'_> {
    ghost use Rattle.policy_links.specs.Inner.Walking.{GivesRecord, records_left};

    type Item = Record;

    ghost next_gives = { GivesRecord };

    ghost remaining = { records_left };

    #[inline]
    fn next(&mut self) -> Option<Record> {
        if self.next == 0 {
            return None;
        }
        let r = record_at(self.image, self.next);
        self.next = r.next;
        Some(r)
    }
}

// The records of a chain with their numbers.
#[derive(Drop)]
pub struct Numbered<'a> {
    records: Records<'a>,
}

impl Iterator for Numbered<'_> {
    ghost use Rattle.policy_links.specs.Inner.Walking.{GivesNumbered, records_left};

    type Item = (usize, Record);

    ghost next_gives = { GivesNumbered };

    ghost remaining = { λ s. records_left s.records };

    #[inline]
    fn next(&mut self) -> Option<(usize, Record)> {
        let number = self.records.next;
        let r = self.records.next()?;
        Some((number, r))
    }
}
