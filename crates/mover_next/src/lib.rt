// What the next step of a move will write: for callers that bring the image's bytes to where they are kept.
#![tactic(auto)]

ghost use Rattle.std.specs.Prelude.{◌≡◌, ◌+◌, ◌-◌, ◌*◌, ◌<◌, min};
ghost use Rattle.job.specs.Write.{peb_start};
ghost use Rattle.mover_rules.specs.Write.{data_steps};
ghost use Rattle.mover_rules.specs.Running.{Running};
ghost use Rattle.mover_next.specs.Upcoming.{next_write};
ghost use Rattle.mover_next.specs.declared.NextWrite.TheVariants.{Store};

use mover_rules::Plan;
use mover_steps::{MeasuredPlan, data_steps, peb_start, unit_length};

// The write of a plan's next step: from which byte of the image on, and how many; nothing when all steps are done;
// refusal 18. Four cases, of which two have values.
#[derive(Clone, Copy)]
pub enum NextWrite {
    Store { at: usize, length: usize },
    Erase { at: usize, length: usize },
    Nothing,
    Refused,
}

// The bytes of a header.
const HEADER_SIZE: usize = 64;

// Unit j of the data.
fn next_unit(m: MeasuredPlan, j: u32, image: &[u8]) -> NextWrite
    requires { (Running m.geometry m.plan image.now) × (j < data_steps m.plan) }
    ensures { result ≡ Store (peb_start m.geometry m.plan.target + (m.geometry.data_start + j * m.geometry.unit))
        (min m.plan.unit (m.plan.vid.data_size - j * m.geometry.unit)) }
{
    let MeasuredPlan { plan, geometry: g } = m;
    let done = j as usize * g.unit as usize;
    let at = peb_start(g, plan.target) + (g.data_start as usize + done);
    NextWrite::Store {
        at,
        length: unit_length(plan, done),
    }
}

// The next write where the geometry is known.
fn next_measured(m: MeasuredPlan, image: &[u8]) -> NextWrite
    ensures { result ≡ next_write m.plan image.now }
{
    if !m.may_run(image) {
        return NextWrite::Refused;
    }
    let MeasuredPlan { plan, geometry: g } = m;
    if plan.steps == 0 {
        return NextWrite::Store {
            at: peb_start(g, plan.target) + g.vid_start as usize,
            length: HEADER_SIZE,
        };
    }
    let j = plan.steps - 1;
    let k = data_steps(plan);
    if j < k {
        return next_unit(m, j, image);
    }
    let at = peb_start(g, plan.old);
    if j == k {
        return NextWrite::Erase {
            at,
            length: g.peb_size as usize,
        };
    }
    if j == k + 1 {
        return NextWrite::Store {
            at,
            length: HEADER_SIZE,
        };
    }
    NextWrite::Nothing
}

// What the next step of a move will write.
pub fn next_write(plan: Plan, image: &[u8]) -> NextWrite
    ensures { result ≡ next_write plan image.now }
{
    match MeasuredPlan::new(plan) {
        Some(m) => next_measured(m, image),
        None => NextWrite::Refused,
    }
}
