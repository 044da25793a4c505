// Carries out the operations of each frame on its image, and prints what each answers and leaves.
#![tactic(auto)]

fn main() {
    frames::each(turn);
}

// The operations of a frame. Image and lent tables are made anew for each.
fn turn(payload: &[u8]) {
    let mut image = [0xFFu8; 262144];
    let mut pebs = [0xDEADBEEFu32; 16384];
    let mut map = [0xDEADBEEFu32; 16384];
    let mut states = [0xDEADBEEFu32; 16384];
    lend(payload, &mut image, &mut pebs, &mut map, &mut states);
}

// Lengths of the lent tables and the image, slip, patches, and operations.
fn lend(payload: &[u8], image: &mut [u8], pebs: &mut [u32], map: &mut [u32], states: &mut [u32]) {
    let p = frames::length_at(payload, 0, 2, pebs.len());
    let m = frames::length_at(payload, 2, 2, map.len());
    let s = frames::length_at(payload, 4, 2, states.len());
    let size = frames::length_at(payload, 6, 4, image.len());
    let rest = frames::rest(payload, 10);
    let lent = &mut image[0..size];
    let at = frames::patches(lent, rest, frames::part_at(rest, 0).end);
    test_moves::operations(
        frames::bytes_at(rest, 0),
        &rest[at..],
        lent,
        &mut pebs[0..p],
        &mut map[0..m],
        &mut states[0..s],
    );
}
