// The rest of a move at once.
ghost use Rattle.std.specs.Prelude.{◌≡◌};
ghost use Rattle.job.specs.Course.{finishing};
ghost use Rattle.mover_rules.specs.Step.{mover_job, stepped_answer};

use crate::steps::step;
use mover_rules::{Plan, Stepped};

// All steps that are left of a move.
pub fn finish(plan: Plan, image: &mut [u8]) -> Stepped
    ensures answer { stepped_answer result ≡ (finishing mover_job plan image.old).answer }
    ensures image { image.new ≡ (finishing mover_job plan image.old).image }
{
    let mut p = plan;
    // `loop`: each step says whether it was the last.
    loop {
        match step(p, image) {
            Stepped::On(next) => p = next,
            Stepped::Done => return Stepped::Done,
            Stepped::Refused => return Stepped::Refused,
        }
    }
}
