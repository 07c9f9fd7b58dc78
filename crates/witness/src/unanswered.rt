// Why a question that shows a path is not answered.
ghost use Rattle.std.specs.Prelude.{◌≡◌};
ghost use Rattle.witness.specs.declared.unanswered.Unanswered.TheVariants as unanswered;
ghost use Rattle.witness.specs.Unanswered.{unanswered_number};

use crate::path::NoRoom;
use base::refusals::Refusal;

// Why there is no answer.
#[derive(Clone, Copy)]
pub enum Unanswered {
    // a question before 12 is answered with no
    Refused(Refusal),
    // 12: the path slice is too short for the m steps of a shortest path
    NoRoom(u32),
}

impl From<Refusal> for Unanswered {
    ghost from_gives = { λ r u. u ≡ unanswered.Refused r };

    fn from(refusal: Refusal) -> Unanswered {
        Unanswered::Refused(refusal)
    }
}

impl From<NoRoom> for Unanswered {
    ghost from_gives = { λ e u. u ≡ unanswered.NoRoom e.steps };

    fn from(room: NoRoom) -> Unanswered {
        Unanswered::NoRoom(room.steps)
    }
}

impl Unanswered {
    // The number that C gets: a refusal's, or 12 with the number of steps.
    pub fn code(self) -> u64
        ensures { result ≡ unanswered_number self }
    {
        match self {
            Unanswered::Refused(refusal) => refusal.code(),
            Unanswered::NoRoom(m) => 256 * u64::from(m) + 4 * 12 + 3,
        }
    }
}
