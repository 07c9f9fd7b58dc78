// The nearest step that a block of a plan offers. A step is an event and the type of its target, as one number, TYPE_CODES * event + type,
// so that steps rise by event and then by type.
ghost use Rattle.std.specs.Prelude.{◌≡◌, ◌+◌, ◌≤◌, ◌<◌, length};
ghost use Rattle.plan.specs.Inner.Regions.{event_entries, block_entries, plan_entries, type_codes};
ghost use Rattle.search_steps.specs.Inner.Nearest.{step_code, steps_end, key_codes, state_codes, kept_of, closed, OpenStep, AskedMask, Skipped, StepBlock, Cursor, OfferedAt, Resumes, SameEvent, Nearest};

use base::bits::{bits_of, has_bit, has_member};
use goal_image::sets::{EVENT_CHAINS, EXCEPTED_EVENTS};
use plan::regions::{EVENT_SETS_START, KEYS_START, LEADS_START, SPECIAL_START, TYPE_CODES};

// No step: a number above every step's.
pub const NONE: u32 = 1024 * TYPE_CODES;

// The steps by the permissions of one class.
const CLASS_STEPS: u32 = 32 * TYPE_CODES;

// All bits of a state: where every event keeps them, one test closes all steps of an entry.
pub const WHOLE: u32 = 63;

// The number of the step by an event to a type. A step is taken apart again by division.
fn step_code(event: u32, ty: u32) -> u32
    requires { (event ≤ event_entries) × (ty < type_codes) }
    ensures { result ≡ step_code event ty }
{
    TYPE_CODES * event + ty
}

// Where the entries of a step's class start, or before; the entry that offers the step; and the step.
#[derive(Clone, Copy)]
pub struct Offer {
    pub start: usize,
    pub entry: usize,
    pub step: u32,
}

// Who asks for a step: a state, the bits of it that every event keeps, and whether only special steps are left to ask.
#[derive(Clone, Copy)]
pub struct Asker {
    pub state: u32,
    pub keeps: u32,
    pub spent: bool,
}

// What an event in the sets by keeps of the state. Where a step leads depends on that and on the target alone.
pub fn kept_of(a: Asker, by: u32) -> u32
    ensures { result ≡ kept_of a by }
{
    a.state & (a.keeps | (by >> EVENT_CHAINS))
}

// Whether an event in the sets by needs no asking: it is in γe, or what it keeps of the state is in the set that is swept.
fn is_closed(a: Asker, by: u32, swept: u64) -> bool
    requires { a.state < state_codes }
    ensures { result ≡ closed a by swept }
{
    has_bit(by, EXCEPTED_EVENTS) || has_member(swept, kept_of(a, by))
}

// The first entry from a on whose class is not below the class.
fn skip(plan: &[u32], stop: usize, a: usize, class: u32) -> usize
    requires { (a ≤ stop) × (stop ≤ block_entries) × (plan_entries ≤ length plan.now) }
    ensures { Skipped plan.now stop a class result }
{
    for j in a..stop {
        if class <= plan[KEYS_START + j] / TYPE_CODES {
            return j;
        }
    }
    stop
}

// The nearest step of an entry from a step on that is not closed. Those not below a step are of no use, and none of them is tested.
fn open_step(plan: &[u32], a: Asker, swept: u64, key: u32, mask: u32, from: u32, below: u32) -> u32
    requires { (a.state < state_codes) × (plan_entries ≤ length plan.now) × (key < key_codes) × (from ≤ steps_end) × (below ≤ steps_end) }
    ensures { OpenStep plan.now a swept key mask from below result }
{
    if a.keeps == WHOLE {
        if has_member(swept, a.state) {
            return NONE;
        }
    }
    let first = step_code(32 * (key / TYPE_CODES), key % TYPE_CODES);
    for q in bits_of(mask) {
        let step = first + TYPE_CODES * q;
        if from <= step {
            if below <= step {
                return step;
            }
            if !is_closed(
                a,
                plan[EVENT_SETS_START + ((step / TYPE_CODES) as usize)],
                swept,
            ) {
                return step;
            }
        }
    }
    NONE
}

// The permissions of an entry that are asked for: where the asker is spent, only the special ones.
fn asked_mask(plan: &[u32], a: Asker, key: u32, mask: u32) -> u32
    requires { (plan_entries ≤ length plan.now) × (key < key_codes) }
    ensures { AskedMask plan.now a key mask result }
{
    if a.spent {
        let class = (key / TYPE_CODES) as usize;
        return mask & plan[SPECIAL_START + class];
    }
    mask
}

// The nearest step of a block from a step on that is not closed. The entries before the start are of earlier classes.
pub fn nearest(
    plan: &[u32],
    swept: &[u64; 256],
    a: Asker,
    lo: usize,
    stop: usize,
    start: usize,
    from: u32,
) -> Offer
    requires { (a.state < state_codes) × StepBlock plan.now lo stop × Cursor plan.now lo stop start from × (from ≤ steps_end) }
    ensures { Nearest plan.now swept.now a lo stop from result }
{
    let first = skip(plan, stop, start, from / CLASS_STEPS);
    let mut step = NONE;
    let mut entry = first;
    for j in first..stop {
        let key = plan[KEYS_START + j];
        if step < CLASS_STEPS * (key / TYPE_CODES) {
            return Offer {
                start: first,
                entry,
                step,
            };
        }
        let other = (key % TYPE_CODES) as usize;
        let mask = asked_mask(plan, a, key, plan[LEADS_START + j]);
        let open = open_step(plan, a, swept[other], key, mask, from, step);
        if open < step {
            step = open;
            entry = j;
        }
    }
    Offer {
        start: first,
        entry,
        step,
    }
}

// The first entry after the one that offers the step that offers the same event to a type that it is not closed for: the stop where
// there is none. Where only special events are asked, this one is.
fn same_event(
    plan: &[u32],
    swept: &[u64; 256],
    a: Asker,
    lo: usize,
    stop: usize,
    entry: usize,
    step: u32,
) -> usize
    requires { (a.state < state_codes) × StepBlock plan.now lo stop × OfferedAt plan.now lo stop entry step × (step < steps_end) }
    ensures { SameEvent plan.now swept.now a stop entry step result }
{
    let e = step / TYPE_CODES;
    let by = plan[EVENT_SETS_START + (e as usize)];
    for j in entry + 1..stop {
        let key = plan[KEYS_START + j];
        if key / TYPE_CODES != step / CLASS_STEPS {
            return stop;
        }
        if has_bit(plan[LEADS_START + j], e % 32) {
            let other = (key % TYPE_CODES) as usize;
            if !is_closed(a, by, swept[other]) {
                return j;
            }
        }
    }
    stop
}

// The nearest step of a block after that of an offer that is not closed. Keys rise, so those by the same event are offered by later
// entries, one after the other: only for the next event all entries of the class are looked at again.
pub fn nearest_after(
    plan: &[u32],
    swept: &[u64; 256],
    a: Asker,
    lo: usize,
    stop: usize,
    offer: Offer,
) -> Offer
    requires { (a.state < state_codes) × StepBlock plan.now lo stop × Resumes plan.now lo stop offer }
    ensures { Nearest plan.now swept.now a lo stop (offer.step + 1) result }
{
    let e = offer.step / TYPE_CODES;
    let entry = same_event(plan, swept, a, lo, stop, offer.entry, offer.step);
    if entry < stop {
        return Offer {
            start: offer.start,
            entry,
            step: step_code(e, plan[KEYS_START + entry] % TYPE_CODES),
        };
    }
    nearest(plan, swept, a, lo, stop, offer.start, step_code(e + 1, 0))
}
