// The operations of a frame of moves, carried out one after the other and printed.
#![tactic(auto)]

mod steps;
mod tables;

use mover_rules::Plan;

// A number of operations, and as many parts, each carried out on what the one before left.
pub fn operations(
    slip: &[u8],
    s: &[u8],
    image: &mut [u8],
    pebs: &mut [u32],
    map: &mut [u32],
    states: &mut [u32],
) {
    // Any plan: one is set before it is stepped.
    let mut plan = show::plan_at(s, 0);
    for i in 0..frames::number_at(s, 0, 2) {
        plan = operation(slip, frames::nth_part(s, i), plan, image, pebs, map, states);
    }
}

// An operation's number, and its operands. Each is one of tables or one of steps.
fn operation(
    slip: &[u8],
    s: &[u8],
    plan: Plan,
    image: &mut [u8],
    pebs: &mut [u32],
    map: &mut [u32],
    states: &mut [u32],
) -> Plan {
    let next = tables::of_tables(slip, s, plan, image, pebs, map, states);
    steps::of_steps(s, next, image)
}
