// How long an image is, and where its records start.
ghost use Rattle.std.specs.Prelude.{◌≡◌, ◌≤◌, ◌<◌};
ghost use Rattle.base.specs.Ranges.{Within};
ghost use Rattle.policy_image.specs.Inner.Sizes.{image_size, most_records, start_of};

use crate::counts::{HEADER, RECORD};

// The bytes of an image of n records.
pub fn image_size(n: usize) -> usize
    requires { n ≤ most_records }
    ensures { (result ≡ image_size n) × (result < 65536) }
{
    HEADER + RECORD * n
}

// Where record k starts.
pub fn record_start(k: usize) -> usize
    requires { Within 1 most_records k }
    ensures { result ≡ start_of k }
{
    HEADER + RECORD * (k - 1)
}
