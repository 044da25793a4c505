// Operations on plan and image alone.
use mover_rules::{Plan, Stepped};

// An operation on plan and image; any other leaves them.
pub fn of_steps(s: &[u8], plan: Plan, image: &mut [u8]) -> Plan {
    match frames::number_at(s, 0, 1) {
        2 => return show::plan_at(s, 1),
        3 => return run(plan, image, frames::number_at(s, 1, 2)),
        4 => finish(plan, image),
        5 => cut(s, image),
        _ => {}
    }
    plan
}

// So many steps; those after the last one change nothing.
fn run(plan: Plan, image: &mut [u8], most: u64) -> Plan {
    let mut p = plan;
    let mut r = Stepped::On(plan);
    for _ in 0..most {
        p = plan_after(r, p);
        r = mover_steps::step(p, image);
    }
    let last = plan_after(r, p);
    ran(plan.steps, last.steps, r, image);
    last
}

// How many steps went on, and the last answer.
fn ran(from: u32, to: u32, r: Stepped, image: &[u8]) {
    frames::word(b"ran");
    frames::next_number(to.wrapping_sub(from) as u64);
    frames::word(b" ");
    show::stepped(r);
    show::image(image);
}

fn plan_after(r: Stepped, plan: Plan) -> Plan {
    match r {
        Stepped::On(p) => p,
        Stepped::Done | Stepped::Refused => plan,
    }
}

fn finish(plan: Plan, image: &mut [u8]) {
    frames::word(b"finished ");
    show::stepped(mover_steps::finish(plan, image));
    show::image(image);
}

// What a cut left of the image is in the payload.
fn cut(s: &[u8], image: &mut [u8]) {
    frames::patches(image, frames::rest(s, 1), 0);
    frames::word(b"cut ");
    show::image(image);
}
