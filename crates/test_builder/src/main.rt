// Builds the image of each frame, attaches it, and prints what both answer and leave.
#![tactic(auto)]

use geometry::HEAD_SIZE;
use report::Refused;

// The bytes of a length.
const LENGTH_SIZE: usize = 4;

fn main() {
    frames::each(turn);
}

// The answer to a frame. Content and image are made anew for each.
fn turn(payload: &[u8]) {
    let mut content = [0xFFu8; 262144];
    let mut image = [0xA5u8; 262144];
    let mut lengths = [0u32; 512];
    answer(payload, &mut content, &mut image, &mut lengths);
}

// The slip, and the rest.
fn answer(payload: &[u8], content: &mut [u8], image: &mut [u8], lengths: &mut [u32]) {
    let end = frames::part_at(payload, 0).end;
    answer_with(
        frames::bytes_at(payload, 0),
        frames::rest(payload, end),
        content,
        image,
        lengths,
    );
}

// Image sequence and lengths; then those of content and image, and patches of the content.
fn answer_with(
    slip: &[u8],
    payload: &[u8],
    content: &mut [u8],
    image: &mut [u8],
    lengths: &mut [u32],
) {
    let seq = frames::u32_at(payload, 0);
    let k = frames::length_at(payload, 4, 2, lengths.len());
    let given = frames::rest(payload, 6);
    store_lengths(given, &mut lengths[0..k]);
    let rest = rest_behind(given, k);
    let c = frames::length_at(rest, 0, 4, content.len());
    let n = frames::length_at(rest, 4, 4, image.len());
    frames::patches(&mut content[0..c], frames::rest(rest, 8), 0);
    build(slip, seq, &lengths[0..k], &content[0..c], &mut image[0..n]);
}

fn store_lengths(payload: &[u8], lengths: &mut [u32]) {
    for (i, n) in lengths.iter_mut().enumerate() {
        *n = length_of(payload, i);
    }
}

// The i-th length.
fn length_of(payload: &[u8], i: usize) -> u32 {
    frames::u32_at(rest_behind(payload, i), 0)
}

// What stands behind k lengths.
fn rest_behind<'a>(payload: &'a [u8], k: usize) -> &'a [u8] {
    frames::rest(payload, k.saturating_mul(LENGTH_SIZE))
}

fn build(slip: &[u8], seq: u32, lengths: &[u32], content: &[u8], image: &mut [u8]) {
    match builder::build(slip, seq, lengths, content, image) {
        Ok(()) => show_built(slip, image),
        Err(e) => show_refused(e, image),
    }
}

fn show_refused(e: Refused, image: &[u8]) {
    show::answer(Err(e));
    show::image(image);
}

// The image, and what attaching it answers and leaves in the lent tables.
fn show_built(slip: &[u8], image: &[u8]) {
    frames::word(b"built");
    frames::line_end();
    show::image(image);
    // A slip that was built has its head; the language asks for the test.
    if let Some(head) = slip.get(..HEAD_SIZE) {
        let mut plain = [0u8; 20];
        plain[..HEAD_SIZE].copy_from_slice(head);
        attach_to(&plain, image);
    }
}

fn attach_to(slip: &[u8], image: &[u8]) {
    let mut pebs = [0xDEADBEEFu32; 8192];
    let mut map = [0xDEADBEEFu32; 12288];
    let mut states = [0xDEADBEEFu32; 128];
    show::answer(attach::attach(slip, image, &mut pebs, &mut map, &mut states));
    show::tables(&pebs, &map, &states);
}
