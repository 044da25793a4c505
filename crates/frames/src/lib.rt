// Frames from standard input, and words to standard output: what the test programs share.
#![tactic(auto)]

ghost use Rattle.std.specs.Prelude.{◌<◌, ◌≤◌, length};

mod headers;

pub use headers::{ec_at, print_ec, print_vid, vid_at};

// Reads every frame, and hands its payload on.
pub fn each<F: FnMut(&[u8])>(mut answer: F)
    requires { F.IsAlwaysCallable answer }
{
    let mut buf = [0u8; 65536];
    for _ in 0..count() {
        let n = next(&mut buf);
        answer(&buf[..n]);
    }
}

// How many frames follow: the first four bytes, the highest first.
fn count() -> u64 {
    let mut head = [0u8; 4];
    io::read_full(0, &mut head);
    number_at(&head, 0, 4)
}

// Reads a frame: a length of two bytes, the highest first, and as many bytes of payload. Answers the length; 0 if they
// are not all there.
fn next(buf: &mut [u8]) -> usize
    ensures { result ≤ length buf.new }
{
    let mut head = [0u8; 2];
    io::read_full(0, &mut head);
    let n = length_at(&head, 0, 2, buf.len());
    if io::read_full(0, &mut buf[0..n]) < n {
        return 0;
    }
    n
}

// A number in decimal.
pub fn number(n: u64) {
    io::print_decimal(1, n);
}

pub fn word(text: &[u8]) {
    io::write_all(1, text);
}

// A blank and a number in decimal.
pub fn next_number(n: u64) {
    io::write_all(1, b" ");
    number(n);
}

pub fn line_end() {
    io::write_all(1, b"\n");
}

// The number in `width` bytes from `at` on; 0 where the payload has not so many.
pub fn number_at(payload: &[u8], at: usize, width: usize) -> u64 {
    if 8 < width || payload.len() < width || payload.len() - width < at {
        return 0;
    }
    field::read(payload, at, width)
}

// The same in 32 bits.
pub fn u32_at(payload: &[u8], at: usize) -> u32 {
    (number_at(payload, at, 4) % 0x100000000) as u32
}

pub fn u8_at(payload: &[u8], at: usize) -> u8 {
    (number_at(payload, at, 1) % 0x100) as u8
}

// The number in `width` bytes from `at` on, if it is at most `most`, else 0.
pub fn length_at(payload: &[u8], at: usize, width: usize, most: usize) -> usize
    ensures { result ≤ most }
{
    let n = number_at(payload, at, width) as usize;
    if most < n {
        return 0;
    }
    n
}

// What the payload has from `at` on.
pub fn rest<'a>(payload: &'a [u8], at: usize) -> &'a [u8] {
    payload.get(at..).unwrap_or(payload)
}

// Where a part of a payload stands.
#[derive(Clone, Copy)]
pub struct Part {
    pub start: usize,
    pub end: usize,
}

// The part at `at`: a length of two bytes, and as many bytes; none where the payload has not so many.
pub fn part_at(payload: &[u8], at: usize) -> Part
    requires { at ≤ length payload.now }
    ensures { (result.start ≤ result.end) × (result.end ≤ length payload.now) }
{
    let start = onward(payload, at, 2);
    let n = length_at(payload, at, 2, payload.len() - start);
    Part {
        start,
        end: start + n,
    }
}

// The bytes of the i-th part behind a number of parts.
pub fn nth_part<'a>(payload: &'a [u8], i: u64) -> &'a [u8] {
    let mut at = onward(payload, 0, 2);
    for _ in 0..i {
        at = part_at(payload, at).end;
    }
    bytes_at(payload, at)
}

// The bytes of the part at `at`.
pub fn bytes_at<'a>(payload: &'a [u8], at: usize) -> &'a [u8]
    requires { at ≤ length payload.now }
{
    let part = part_at(payload, at);
    &payload[part.start..part.end]
}

// The place n bytes on, or the end.
fn onward(payload: &[u8], at: usize, n: usize) -> usize
    requires { at ≤ length payload.now }
    ensures { result ≤ length payload.now }
{
    at + n.min(payload.len() - at)
}

// A patch at `at`: an offset, a length, and so many bytes that are written there. Answers the place after it; the end,
// where it is not whole or does not fit.
fn patch(image: &mut [u8], payload: &[u8], at: usize) -> usize
    requires { at ≤ length payload.now }
    ensures { result ≤ length payload.now }
{
    let end = payload.len();
    if end - at < 6 {
        return end;
    }
    let start = at + 6;
    let n = number_at(payload, at + 4, 2) as usize;
    if end - start < n || image.len() < n {
        return end;
    }
    let from = length_at(payload, at, 4, image.len() - n);
    base::store(image, from, &payload[start..start + n]);
    start + n
}

// A number of patches in two bytes, and the patches. Answers the place after them.
pub fn patches(image: &mut [u8], payload: &[u8], at: usize) -> usize
    requires { at ≤ length payload.now }
    ensures { result ≤ length payload.now }
{
    let mut end = onward(payload, at, 2);
    for _ in 0..number_at(payload, at, 2) {
        end = patch(image, payload, end);
    }
    end
}

// Two digits for each byte.
pub fn hex(bytes: &[u8]) {
    for b in bytes {
        io::print_hex(1, u64::from(*b), 2);
    }
}

// A name, and words: each with how often it stands there.
pub fn words(name: &[u8], words: &[u32]) {
    word(name);
    for run in words.chunk_by(|w, next| w == next) {
        print_run(run[0], run.len() as u64);
    }
    line_end();
}

// A word, and how often it stands there.
fn print_run(w: u32, n: u64) {
    next_number(w as u64);
    if n != 1 {
        word(b"*");
        number(n);
    }
}
