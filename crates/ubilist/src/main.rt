// Lists a dump: slip and image from standard input, the listing to standard output. Where one of the two fails, a line
// on standard error says so.
#![tactic(auto)]

mod calls;
mod input;
mod output;

use input::Input;
use std::io;

fn main(rt: HostRuntime) -> io::Result<()> {
    let mut held = [0u8; input::HELD];
    let mut out = [0u8; 16384];
    match input::read(&mut rt.stdin(), &mut held) {
        Ok(Input::Whole(n)) => print_listing(&rt, &held[0..n], false, &mut out),
        Ok(Input::More) => print_listing(&rt, &held, true, &mut out),
        Err(e) => output::fail(&rt, "standard input", &e),
    }
}

// No listing is longer than the buffer (listing_short of crates/listing/proofs/Bounds.antt); if one were, that would
// be said.
fn print_listing(
    rt: &(impl Print + Eprint + AllocGlobal),
    input: &[u8],
    more: bool,
    out: &mut [u8],
) -> io::Result<()> {
    let Ok(n) = listing::list(input, more, out) else {
        return output::say(rt, "the listing is too long");
    };
    output::print(rt, &out[0..n])
}
