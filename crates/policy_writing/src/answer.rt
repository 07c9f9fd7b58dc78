// The number that C gets for the answer of a call that writes a policy image: how many bytes are written, or the refusal.
ghost use Rattle.std.specs.Prelude.{◌≡◌};
ghost use Rattle.policy_writing.specs.Writing.{writing_number};

use base::refusals::Refusal;

pub fn number(written: Result<u32, Refusal>) -> u64
    ensures { result ≡ writing_number written }
{
    match written {
        Ok(bytes) => 256 * u64::from(bytes),
        Err(refusal) => refusal.code(),
    }
}
