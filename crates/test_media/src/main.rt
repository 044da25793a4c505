// Prints for each frame what its media format functions answer: the first byte says which part of the format.
#![tactic(auto)]

mod headers;
mod slips;
mod tables;

fn main() {
    frames::each(answer);
}

// The answer to a frame.
fn answer(payload: &[u8]) {
    let rest = frames::rest(payload, 1);
    match frames::number_at(payload, 0, 1) {
        1 => crc(rest),
        2 => slips::answer(rest),
        3 => headers::answer(rest),
        _ => tables::answer(rest),
    }
    frames::line_end();
}

// The CRC of what the payload has past the first byte and as many bytes as that one says.
fn crc(payload: &[u8]) {
    let from = frames::u8_at(payload, 0) as usize + 1;
    let bytes = payload.get(from..).unwrap_or(&[]);
    frames::number(crc32::crc32(bytes) as u64);
}
