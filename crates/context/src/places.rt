// The places of the contexts of a type: one block for each type.
ghost use Rattle.std.specs.Prelude.{◌≡◌, ◌+◌, ◌≤◌};
ghost use Rattle.context.specs.Inner.Places.{Countable, first_place};

use policy_image::counts::Counts;

// The place of the first context of a type.
pub fn first_place(counts: Counts, ty: u32) -> u32
    requires { Countable counts × (1 ≤ ty) × (ty ≤ counts.types + 1) }
    ensures { result ≡ first_place counts ty }
{
    (ty - 1) * counts.roles * counts.users
}
