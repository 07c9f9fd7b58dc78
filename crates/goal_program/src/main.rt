// The goal program: reads policy.img and goal.img in the working directory, asks whether the goal holds of the policy, and
// prints the answer and, where the goal is broken, the path.
#![tactic(auto)]

use report::ask;

const WORK: usize = 16384;

const PATH: usize = 4097;

fn main(rt: HostRuntime) {
    let mut work1 = [0u32; WORK];
    let mut work2 = [0u32; WORK];
    let mut path = [0u32; PATH];
    ask(
        &rt,
        b"policy.img",
        b"goal.img",
        &mut work1,
        &mut work2,
        &mut path,
    );
}
