// The dump from standard input.
ghost use Rattle.std.specs.Prelude.{◌≡◌, ◌+◌, ◌<◌, ◌≤◌, IfOk};
ghost use Rattle.ubilist.specs.Input.{input_of, within};

use crate::calls;
use std::io;
use std::io::Read;
use transfer::Transfer;

// The bytes that the program holds: 60 KiB.
pub const HELD: usize = 61440;

// One byte more, to tell whether there is more.
const MOST: usize = 61441;

#[derive(Clone, Copy)]
pub enum Input {
    // All of it: so many bytes.
    Whole(usize),
    // More than the program holds.
    More,
}

// Reads into the buffer up to the end of the input. Where a call fails, the error is the last call's.
pub fn read(stdin: &mut impl Read, held: &mut [u8]) -> io::Result<Input>
    ensures { IfOk result (λ i. within i 61440) }
{
    let mut p = transfer::begin();
    // `loop`: what the call before came to says whether another is due.
    loop {
        let got = read_some(stdin, held, p.moved);
        let t = calls::after(p, MOST, &got);
        let Transfer::On(next) = t else {
            got?;
            // no call failed, so this is an input
            return Ok(input_of(t).unwrap());
        };
        p = next;
    }
}

// What a row of calls has come to. Where another call is due, or one failed, it is no input.
fn input_of(t: Transfer) -> Option<Input>
    ensures { result ≡ input_of t }
{
    match t {
        Transfer::Full => Some(Input::More),
        Transfer::Ended(n) => Some(Input::Whole(n)),
        Transfer::Failed => None,
        Transfer::On(_) => None,
    }
}

// One call: for the rest of what is held or, where that is full, for the byte beyond.
fn read_some(stdin: &mut impl Read, held: &mut [u8], at: usize) -> io::Result<usize>
    ensures { IfOk result (λ n. at < 61441 → at + n ≤ 61441) }
{
    let end = held.len().min(HELD);
    if at < end {
        return stdin.read(&mut held[at..end]);
    }
    let mut beyond = [0u8; 1];
    stdin.read(&mut beyond)
}
