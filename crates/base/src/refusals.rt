// Refusals: a call asks its questions in order, and is refused by the first whose answer is no.
ghost use Rattle.std.specs.Prelude.{◌≡◌, ◌+◌, ◌*◌};
ghost use Rattle.base.specs.Refusals.{question_number};

// The question whose answer is no. Question 12, room for a path, is no refusal: the answer there has a number of steps too.
#[derive(Clone, Copy, Debug, PartialEq, Eq)]
pub enum Refusal {
    PolicyLength = 1,
    PolicyCounts = 2,
    PolicyLinks = 3,
    PolicyChains = 4,
    PolicyFields = 5,
    PolicyNodes = 6,
    GoalLength = 7,
    GoalLegs = 8,
    GoalChains = 9,
    GoalFields = 10,
    WorkSlices = 11,
    ContextsAndEvent = 13,
    PolicySources = 14,
    TooManyRecords = 15,
    OutputSlice = 16,
}

impl Refusal {
    // The question's number.
    pub fn number(self) -> u32
        ensures { result ≡ question_number self }
    {
        self as u32
    }

    // The number that C gets for a refusal: 4 times the question's, and 3.
    pub fn code(self) -> u64
        ensures { result ≡ 4 * question_number self + 3 }
    {
        4 * u64::from(self.number()) + 3
    }
}
