// Lists the dump of each frame into a buffer of the frame's length, and prints the text and whether the bytes behind it
// stayed.
#![tactic(auto)]

fn main() {
    frames::each(turn);
}

// The answer to a frame. Dump and buffer are made anew for each.
fn turn(payload: &[u8]) {
    let mut dump = [0xFFu8; 61440];
    let mut out = [0xA5u8; 65536];
    answer(payload, &mut dump, &mut out);
}

// Whether there was more input, lengths of buffer and dump, and patches.
fn answer(payload: &[u8], dump: &mut [u8], out: &mut [u8]) {
    let more = frames::number_at(payload, 0, 1) == 1;
    let room = frames::length_at(payload, 1, 4, out.len());
    let size = frames::length_at(payload, 5, 4, dump.len());
    let lent = &mut dump[0..size];
    frames::patches(lent, frames::rest(payload, 9), 0);
    show(lent, more, &mut out[0..room]);
}

fn show(dump: &[u8], more: bool, out: &mut [u8]) {
    match listing::list(dump, more, out) {
        Ok(n) => show_text(out, n),
        Err(_) => show_short(out),
    }
    frames::word(b"end");
    frames::line_end();
}

fn show_text(out: &[u8], n: usize) {
    if out.len() < n {
        frames::word(b"a text beyond the buffer");
        frames::line_end();
        return;
    }
    frames::word(b"listed");
    frames::next_number(n as u64);
    frames::line_end();
    frames::word(&out[0..n]);
    if !unchanged(&out[n..]) {
        frames::word(b"bytes behind the text changed");
        frames::line_end();
    }
}

fn show_short(out: &[u8]) {
    frames::word(b"refused 4");
    frames::line_end();
    if !unchanged(out) {
        frames::word(b"the buffer changed");
        frames::line_end();
    }
}

// Are the bytes those of before the call?
fn unchanged(bytes: &[u8]) -> bool {
    bytes.iter().all(|b| *b == 0xA5)
}
