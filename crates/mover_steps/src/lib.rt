// The steps of a move on the lent image, one by one or all that are left.
#![tactic(auto)]

mod step_finish;
mod steps;

pub use step_finish::finish;
pub use steps::{MeasuredPlan, data_steps, peb_start, step, unit_length};
