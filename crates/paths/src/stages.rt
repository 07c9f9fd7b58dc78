// The stages that are still possible on a path.
ghost use Rattle.std.specs.Prelude.{◌≡◌, ◌%◌, ◌<◌, ◌≤◌};
ghost use Rattle.paths.specs.Inner.Stages.{Advanced};

// The low byte: bits 0 to 7.
fn low(x: u32) -> u8
    ensures { result ≡ x % 256 }
{
    (x % 256) as u8
}

// The step of `advance` in a byte, which has the stages of up to seven legs.
fn advance_byte(stages: u8, repeated: u8, event: u8, context: u8, n: u32) -> u8
    requires { n < 8 }
    ensures { Advanced stages repeated event context n result }
{
    let live = stages & event & ((1 << n) - 1);
    (live & repeated) | ((live << 1) & context)
}

// The stages possible after a step, from those before it. Bit i of repeated says that leg i is repeated, bit i of in_event that
// the event is in the set of leg i, bit i of in_context that the new context is in set i. The goal has n legs, which are six at the most.
pub fn advance(stages: u32, repeated: u32, in_event: u32, in_context: u32, n: u32) -> u32
    requires { n ≤ 7 }
    ensures { Advanced stages repeated in_event in_context n result }
{
    advance_byte(
        low(stages),
        low(repeated),
        low(in_event),
        low(in_context),
        n,
    ) as u32
}
