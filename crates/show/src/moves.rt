// Plans and answers of moves, in payloads and on lines.
ghost use Rattle.std.specs.Prelude.{◌≤◌};

use mover_rules::{Plan, Stepped};
use report::Refused;

// A plan's 81 bytes from `at` on.
pub fn plan_at(payload: &[u8], at: usize) -> Plan
    requires { at ≤ 256 }
{
    Plan {
        peb_size: frames::u32_at(payload, at),
        unit: frames::u32_at(payload, at + 4),
        sub_unit: frames::u32_at(payload, at + 8),
        old: frames::u32_at(payload, at + 12),
        target: frames::u32_at(payload, at + 16),
        vid: frames::vid_at(payload, at + 20),
        ec: frames::ec_at(payload, at + 56),
        steps: frames::u32_at(payload, at + 77),
    }
}

// A plan, or a refusal, and a blank.
pub fn begun(r: Result<Plan, Refused>) {
    match r {
        Ok(p) => print_plan(p),
        Err(e) => crate::refusal(e.number, e.place),
    }
    frames::word(b" ");
}

fn print_plan(p: Plan) {
    frames::word(b"planned");
    frames::next_number(p.peb_size as u64);
    frames::next_number(p.unit as u64);
    frames::next_number(p.sub_unit as u64);
    frames::next_number(p.old as u64);
    frames::next_number(p.target as u64);
    frames::print_vid(p.vid);
    frames::print_ec(p.ec);
    frames::next_number(p.steps as u64);
}

// What a step answers, with the number of steps run if it goes on, and a blank.
pub fn stepped(r: Stepped) {
    match r {
        Stepped::On(p) => on(p.steps),
        Stepped::Done => frames::word(b"done"),
        Stepped::Refused => crate::refusal(18, 0),
    }
    frames::word(b" ");
}

fn on(steps: u32) {
    frames::word(b"on");
    frames::next_number(steps as u64);
}
