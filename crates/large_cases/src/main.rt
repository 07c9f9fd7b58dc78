// Larger cases of the goal question, beyond what a theorem computes and in part beyond the goal program's slices. Each is read
// from data/, asked, and printed after its name. What a second search by other hands says of the same images stands in the file stdout.
#![tactic(auto)]

use report::ask;
use std::io::Print;

const WORK: usize = 65536;

const PATH: usize = 8193;

fn case(rt: &HostRuntime, line: &[u8], policy_name: &[u8], goal_name: &[u8]) {
    let mut work1 = [0u32; WORK];
    let mut work2 = [0u32; WORK];
    let mut path = [0u32; PATH];
    let _ = rt.write_all(line);
    ask(
        rt,
        policy_name,
        goal_name,
        &mut work1,
        &mut work2,
        &mut path,
    );
}

fn main(rt: HostRuntime) {
    case(
        &rt,
        b"case line-bypass\n",
        b"line-bypass.policy.img",
        b"line-bypass.goal.img",
    );
    case(
        &rt,
        b"case line-write-only\n",
        b"line-write-only.policy.img",
        b"line-write-only.goal.img",
    );
    case(
        &rt,
        b"case line-follows\n",
        b"line-follows.policy.img",
        b"line-follows.goal.img",
    );
    case(
        &rt,
        b"case drawn-five-legs-both-exceptions\n",
        b"drawn-five-legs-both-exceptions.policy.img",
        b"drawn-five-legs-both-exceptions.goal.img",
    );
    case(
        &rt,
        b"case drawn-six-legs-165-allows\n",
        b"drawn-six-legs-165-allows.policy.img",
        b"drawn-six-legs-165-allows.goal.img",
    );
    case(
        &rt,
        b"case drawn-six-legs-excepted-contexts\n",
        b"drawn-six-legs-excepted-contexts.policy.img",
        b"drawn-six-legs-excepted-contexts.goal.img",
    );
    case(
        &rt,
        b"case drawn-six-legs-57216-nodes\n",
        b"drawn-six-legs-57216-nodes.policy.img",
        b"drawn-six-legs-57216-nodes.goal.img",
    );
    case(
        &rt,
        b"case drawn-six-legs-24960-nodes\n",
        b"drawn-six-legs-24960-nodes.policy.img",
        b"drawn-six-legs-24960-nodes.goal.img",
    );
    case(
        &rt,
        b"case drawn-four-legs-214-allows\n",
        b"drawn-four-legs-214-allows.policy.img",
        b"drawn-four-legs-214-allows.goal.img",
    );
}
