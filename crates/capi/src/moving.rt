// A move: its beginning, its steps, and what the next one will write.
ghost use Rattle.std.specs.Prelude.{◌≡◌, true, ◌||◌, ◌≤◌, length};
ghost use Rattle.report.specs.Attach.{lent, request, attaching_into, long_enough, tables_after, over};
ghost use Rattle.job.specs.Job.{stepping};
ghost use Rattle.job.specs.Course.{finishing};
ghost use Rattle.mover_rules.specs.Begin.{beginning};
ghost use Rattle.mover_rules.specs.Step.{mover_job};
ghost use Rattle.mover_next.specs.Upcoming.{next_write};
ghost use Rattle.capi_words.specs.Lent.{fits};
ghost use Rattle.capi_words.specs.Structs.{plan_words, answer_words, plan_most, plan_in};
ghost use Rattle.capi_answers.specs.Calls.{short, judged, changed, number_of, progress_number, progress_words};
ghost use Rattle.capi_answers.specs.Calls.{next_number, next_words};
ghost use Rattle.capi.specs.Finish.{finished_words};

use capi_answers::{MAY_NOT_RUN, UNFIT, store_begun, store_next, store_plan, store_stepped};
use capi_words::{PLAN_WORDS, WRITE_WORDS};
use mover_rules::{Plan, Stepped};
use report::refusal::SHORT_BUFFER;

// The plan of a move, or its refusal; the lent tables are left as attaching leaves them.
#[unsafe(no_mangle)]
pub extern "C" fn choduljin_begin(
    slip: &[u8],
    image: &[u8],
    pebs: &mut [u32],
    map: &mut [u32],
    states: &mut [u32],
    volume: u32,
    leb: u32,
    target: u32,
    plan: &mut [u64],
) -> u32
    ensures answer { result ≡ judged (short 24 plan.old) true
        (number_of (beginning (request slip.now) image.now
        (long_enough (lent pebs.old map.old states.old)) volume leb target)) }
    ensures tables { lent pebs.new map.new states.new
        ≡ changed (short 24 plan.old) true
        (tables_after
        (attaching_into (request slip.now) image.now
        (lent pebs.old map.old states.old))
        (lent pebs.old map.old states.old))
        (lent pebs.old map.old states.old) }
    ensures plan { plan.new ≡ changed (short 24 plan.old) true
        (over (answer_words plan_words (beginning (request slip.now) image.now
        (long_enough (lent pebs.old map.old states.old)) volume leb target))
        plan.old)
        plan.old }
{
    if plan.len() < PLAN_WORDS {
        return SHORT_BUFFER;
    }
    let b = mover_begin::begin(slip, image, pebs, map, states, volume, leb, target);
    store_begun(b, plan)
}

// The next step of a plan.
#[unsafe(no_mangle)]
pub extern "C" fn choduljin_step(plan: &mut [u64], image: &mut [u8]) -> u32
    ensures answer { result ≡ judged (short 24 plan.old) (fits plan.old plan_most)
        (progress_number (stepping mover_job (plan_in plan.old) image.old).answer) }
    ensures plan { plan.new
        ≡ changed (short 24 plan.old) (fits plan.old plan_most)
        (over (progress_words (stepping mover_job (plan_in plan.old) image.old).answer)
        plan.old)
        plan.old }
    ensures image { image.new
        ≡ changed (short 24 plan.old) (fits plan.old plan_most)
        (stepping mover_job (plan_in plan.old) image.old).image image.old }
{
    if plan.len() < PLAN_WORDS {
        return SHORT_BUFFER;
    }
    if !capi_words::plan_fits(plan) {
        return UNFIT;
    }
    let p = capi_words::plan_in(plan);
    let s = mover_steps::step(p, image);
    store_stepped(s, plan)
}

// All steps that are left. The plan's words are stored where they are done, so that a further call runs none again.
fn run_steps(plan: Plan, image: &mut [u8], lent: &mut [u64]) -> u32
    requires { 24 ≤ length lent.old }
    ensures answer { result ≡ progress_number (finishing mover_job plan image.old).answer }
    ensures words { lent.new
        ≡ over (finished_words plan image.old) lent.old }
    ensures image { image.new ≡ (finishing mover_job plan image.old).image }
{
    let mut p = plan;
    // `loop`: each step says whether it was the last.
    loop {
        match mover_steps::step(p, image) {
            Stepped::On(next) => p = next,
            Stepped::Done => return store_plan(p, lent),
            Stepped::Refused => return MAY_NOT_RUN,
        }
    }
}

// All steps that are left of a plan.
#[unsafe(no_mangle)]
pub extern "C" fn choduljin_finish(plan: &mut [u64], image: &mut [u8]) -> u32
    ensures answer { result ≡ judged (short 24 plan.old) (fits plan.old plan_most)
        (progress_number (finishing mover_job (plan_in plan.old) image.old).answer) }
    ensures plan { plan.new
        ≡ changed (short 24 plan.old) (fits plan.old plan_most)
        (over (finished_words (plan_in plan.old) image.old) plan.old)
        plan.old }
    ensures image { image.new
        ≡ changed (short 24 plan.old) (fits plan.old plan_most)
        (finishing mover_job (plan_in plan.old) image.old).image image.old }
{
    if plan.len() < PLAN_WORDS {
        return SHORT_BUFFER;
    }
    if !capi_words::plan_fits(plan) {
        return UNFIT;
    }
    let p = capi_words::plan_in(plan);
    run_steps(p, image, plan)
}

// What the plan's next step will write.
#[unsafe(no_mangle)]
pub extern "C" fn choduljin_next_write(plan: &[u64], image: &[u8], write: &mut [u64]) -> u32
    ensures answer { result
        ≡ judged (short 24 plan.now || short 3 write.old) (fits plan.now plan_most)
        (next_number (next_write (plan_in plan.now) image.now)) }
    ensures write { write.new
        ≡ changed (short 24 plan.now || short 3 write.old) (fits plan.now plan_most)
        (over (next_words (next_write (plan_in plan.now) image.now)) write.old)
        write.old }
{
    if plan.len() < PLAN_WORDS || write.len() < WRITE_WORDS {
        return SHORT_BUFFER;
    }
    if !capi_words::plan_fits(plan) {
        return UNFIT;
    }
    let p = capi_words::plan_in(plan);
    let w = mover_next::next_write(p, image);
    store_next(w, write)
}
