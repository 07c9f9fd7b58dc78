// Ranges of numbers, both ends included.
ghost use Rattle.base.specs.Inner.Decides.{Decides};
ghost use Rattle.base.specs.Ranges.{Within};

// Whether n lies from low to high.
pub fn within(low: u32, high: u32, n: u32) -> bool
    ensures { Decides result (Within low high n) }
{
    (low..=high).contains(&n)
}
