// The steps of a move, one by one.
ghost use Rattle.std.specs.Prelude.{◌≡◌, ◌+◌, ◌-◌, ◌*◌, ◌/◌, ◌≤◌, ◌<◌, min, false, IfSome, IfNone};
ghost use Rattle.base.specs.Answers.{all_of};
ghost use Rattle.base.specs.Lists.{put};
ghost use Rattle.geometry.specs.Geometry.{geometry_rules};
ghost use Rattle.job.specs.Write.{applied_whole, peb_start};
ghost use Rattle.job.specs.Job.{stepping};
ghost use Rattle.mover_rules.specs.Write.{data_steps, step_count, unit_bytes, write_after};
ghost use Rattle.mover_rules.specs.Step.{runnable, mover_job, stepped_answer};
ghost use Rattle.mover_rules.specs.Running.{Measured, Running};

use geometry::Geometry;
use mover_rules::{Plan, Stepped};

// A plan whose geometry is within the rules, with that geometry.
#[derive(Clone, Copy)]
pub struct MeasuredPlan {
    pub plan: Plan,
    pub geometry: Geometry,
    pub ghost measured: { Measured geometry plan },
}

// Where PEB i starts.
pub fn peb_start(g: Geometry, i: u32) -> usize
    requires { (i < 4096) × (g.peb_size ≤ 262144) }
    ensures { result ≡ i * g.peb_size }
{
    i as usize * g.peb_size as usize
}

// The steps that store data.
pub fn data_steps(plan: Plan) -> u32
    requires { (plan.vid.data_size ≤ 262144) × ((0 < plan.unit) × (plan.unit ≤ 262144)) }
    ensures { (result ≡ data_steps plan) × (result ≤ 262144) }
{
    (plan.vid.data_size + (plan.unit - 1)) / plan.unit
}

// The length of the unit that starts `done` bytes into the data: the last may be short.
pub fn unit_length(plan: Plan, done: usize) -> usize
    requires { done ≤ plan.vid.data_size }
    ensures { result ≡ min plan.unit (plan.vid.data_size - done) }
{
    let left = plan.vid.data_size as usize - done;
    left.min(plan.unit as usize)
}

impl MeasuredPlan {
    // The plan with its geometry; none outside the rules.
    pub fn new(plan: Plan) -> Option<MeasuredPlan>
        ensures plan { IfSome result (λ m. m.plan ≡ plan) }
        ensures outside { IfNone result (all_of (geometry_rules plan.peb_size plan.unit plan.sub_unit) ≡ false) }
    {
        let Ok(geometry) = geometry::check_geometry(plan.peb_size, plan.unit, plan.sub_unit) else {
            return None;
        };
        Some(MeasuredPlan { plan, geometry })
    }

    // May the plan's steps run on the image? Refusal 18 past the geometry.
    pub fn may_run(self, image: &[u8]) -> bool
        ensures { result ≡ runnable self.plan image.now }
    {
        let MeasuredPlan { plan, geometry: g } = self;
        if !geometry::image_fits(image, g) {
            return false;
        }
        let n = image.len() / g.peb_size as usize;
        if n <= plan.old as usize {
            return false;
        }
        if n <= plan.target as usize {
            return false;
        }
        if plan.old == plan.target {
            return false;
        }
        if !vid_header::vid_readable(plan.vid, g.leb_size) {
            return false;
        }
        ec_header::ec_readable(plan.ec)
    }

    // Unit j of the data is stored.
    fn store_unit(self, j: u32, image: &mut [u8])
        requires { (Running self.geometry self.plan image.old) × (j < data_steps self.plan) }
        ensures { image.new ≡ put
            (peb_start self.geometry self.plan.target + (self.geometry.data_start + j * self.geometry.unit))
            (unit_bytes self.plan image.old j) image.old }
    {
        let MeasuredPlan { plan, geometry: g } = self;
        let done = j as usize * g.unit as usize;
        let n = unit_length(plan, done);
        let at = g.data_start as usize + done;
        let from = peb_start(g, plan.old) + at;
        let to = peb_start(g, plan.target) + at;
        flash_writes::copy_run(image, from, to, n)
    }

    // The write of the next step, where one is left.
    fn write_next(self, image: &mut [u8])
        requires { (Running self.geometry self.plan image.old) × (self.plan.steps < step_count self.plan) }
        ensures { image.new
            ≡ applied_whole (write_after self.plan image.old self.plan.steps) image.old }
    {
        let MeasuredPlan { plan, geometry: g } = self;
        if plan.steps == 0 {
            let at = peb_start(g, plan.target) + g.vid_start as usize;
            return flash_writes::store_vid(plan.vid, g.leb_size, image, at);
        }
        let j = plan.steps - 1;
        let k = data_steps(plan);
        if j < k {
            return self.store_unit(j, image);
        }
        let at = peb_start(g, plan.old);
        if j == k {
            return flash_writes::erase(image, at, g.peb_size as usize);
        }
        flash_writes::store_ec(plan.ec, image, at)
    }
}

// The next step of a move.
pub fn step(plan: Plan, image: &mut [u8]) -> Stepped
    ensures answer { stepped_answer result ≡ (stepping mover_job plan image.old).answer }
    ensures image { image.new ≡ (stepping mover_job plan image.old).image }
{
    let Some(m) = MeasuredPlan::new(plan) else {
        return Stepped::Refused;
    };
    if !m.may_run(image) {
        return Stepped::Refused;
    }
    if 3 + data_steps(plan) <= plan.steps {
        return Stepped::Done;
    }
    m.write_next(image);
    Stepped::On(Plan {
        steps: plan.steps + 1,
        ..plan
    })
}
