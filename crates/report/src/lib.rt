// What the programs share: images are read from files, the goal question is asked of them, and its answer is printed.
#![tactic(auto)]

ghost use Rattle.std.specs.Prelude.{◌+◌, ◌*◌, ◌≤◌, length};
ghost use Rattle.std.specs.Counts.{IsPrefixLen};
ghost use Rattle.report.specs.Inner.Printing.{Printable};

use context::{Context, Event};
use goal_question::goal::{Outcome, goal_question};
use std::fs::{self, Files};
use std::io::{Print, Read};
use std::str;
use witness::unanswered::Unanswered;

// One byte more than the largest images, so that a file that is longer is refused for its length.
const POLICY_BYTES: usize = 49165;

const GOAL_BYTES: usize = 2075;

// Reads until the buffer is full, the input ends or a read fails, and says how many bytes it put at the buffer's start.
fn read_full<F: Read>(input: &mut F, buf: &mut [u8]) -> usize
    ensures { IsPrefixLen result buf.new }
{
    let mut done: usize = 0;
    while done < buf.len() {
        let n = match input.read(&mut buf[done..]) {
            Ok(n) => n,
            Err(_) => 0,
        };
        if n == 0 {
            break;
        }
        done += n;
    }
    done
}

// Reads the file, as far as the buffer reaches. One that cannot be opened or read counts as 0 bytes. By a name that is
// not UTF-8 none can be opened.
fn read_image<R: Files>(rt: &R, name: &[u8], buf: &mut [u8]) -> usize
    ensures { IsPrefixLen result buf.new }
{
    let Ok(name) = str::from_utf8(name) else {
        return 0;
    };
    match fs::open(rt, name) {
        Ok(mut file) => read_full(&mut file, buf),
        Err(_) => 0,
    }
}

// Text, as a part of a line. Each part is a write of its own: where one fails it is passed over, and the others are
// written all the same.
fn print_text(rt: &impl Print, text: &str) {
    let _ = rt.write_all(text.as_bytes());
}

// A number, likewise.
fn print_number(rt: &impl Print, n: u32) {
    let _ = rt.print(n);
}

// "t r u"
fn print_context(rt: &impl Print, x: Context) {
    print_number(rt, x.ty);
    print_text(rt, " ");
    print_number(rt, x.role);
    print_text(rt, " ");
    print_number(rt, x.user);
    print_text(rt, "\n");
}

// "c p"
fn print_event(rt: &impl Print, e: Event) {
    print_number(rt, e.class);
    print_text(rt, " ");
    print_number(rt, e.perm);
    print_text(rt, "\n");
}

// The word, and a number after it, on a line.
fn print_line(rt: &impl Print, word: &str, n: u32) {
    print_text(rt, word);
    print_text(rt, " ");
    print_number(rt, n);
    print_text(rt, "\n");
}

// The path of m steps, its contexts and events in turn.
fn print_path(rt: &impl Print, path: &[u32], m: u32)
    requires { 2 * m + 1 ≤ length path.now }
{
    let last = m as usize;
    for j in 0..last {
        print_context(rt, Context::decode(path[2 * j]));
        print_event(rt, Event::decode(path[2 * j + 1]));
    }
    print_context(rt, Context::decode(path[2 * last]));
}

// The answer, and the path where one is shown.
fn print_outcome(rt: &impl Print, outcome: Result<Outcome, Unanswered>, path: &[u32])
    requires { Printable outcome path.now }
{
    match outcome {
        Ok(Outcome::Holds) => print_text(rt, "holds\n"),
        Ok(Outcome::Order(m)) => {
            print_line(rt, "order", m);
            print_path(rt, path, m);
        }
        Ok(Outcome::Events(m)) => {
            print_line(rt, "events", m);
            print_path(rt, path, m);
        }
        Err(Unanswered::Refused(refusal)) => print_line(rt, "refused", refusal.number()),
        Err(Unanswered::NoRoom(m)) => print_line(rt, "refused 12", m),
    }
}

// Asks whether the goal of one file holds of the policy of the other, in the slices, and prints the answer.
pub fn ask<R: Files + Print>(
    rt: &R,
    policy_name: &[u8],
    goal_name: &[u8],
    work1: &mut [u32],
    work2: &mut [u32],
    path: &mut [u32],
) {
    let mut policy = [0u8; POLICY_BYTES];
    let mut goal = [0u8; GOAL_BYTES];
    let p = read_image(rt, policy_name, &mut policy);
    let g = read_image(rt, goal_name, &mut goal);
    let outcome = goal_question(&policy[..p], &goal[..g], work1, work2, path);
    print_outcome(rt, outcome, path);
}
