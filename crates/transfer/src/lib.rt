// What a row of calls of C's `read` or `write` has come to, from their answers alone.
#![tactic(auto)]

ghost use Rattle.std.specs.Prelude.{◌≡◌};
ghost use Rattle.transfer.specs.Transfer.{begun, after_bytes, after_interruption, after_error, after_call};

// How many interruptions a row of calls bears: the calls end, whatever they answer.
const INTERRUPTIONS: usize = 1000000;

// A row of calls that goes on: the bytes moved so far, and the interruptions that it still bears.
#[derive(Clone, Copy)]
pub struct Progress {
    pub moved: usize,
    pub tries: usize,
}

#[derive(Clone, Copy)]
pub enum Transfer {
    // Another call is due.
    On(Progress),
    // As many bytes were moved as there is room for.
    Full,
    // A call moved nothing: the end of the input, after so many bytes.
    Ended(usize),
    // A call failed, or the interruptions were too many.
    Failed,
}

// Before the first call.
pub fn begin() -> Progress
    ensures { result ≡ begun }
{
    Progress {
        moved: 0,
        tries: INTERRUPTIONS,
    }
}

// After a call that answered `got`, where there is room for `room` bytes in all; `interrupted` says whether `errno` was
// EINTR then.
pub fn after_call(p: Progress, room: usize, got: isize, interrupted: bool) -> Transfer
    ensures { result ≡ after_call room p got interrupted }
{
    match usize::try_from(got) {
        Ok(n) => after_bytes(p, room, n),
        Err(_) => after_error(p, interrupted),
    }
}

// After a call that moved n bytes. More than there is room for are an answer that no call of C gives.
fn after_bytes(p: Progress, room: usize, n: usize) -> Transfer
    ensures { result ≡ after_bytes room p n }
{
    if n == 0 {
        return Transfer::Ended(p.moved);
    }
    let Some(left) = room.checked_sub(p.moved) else {
        return Transfer::Failed;
    };
    if left < n {
        return Transfer::Failed;
    }
    if left == n {
        return Transfer::Full;
    }
    Transfer::On(Progress {
        moved: p.moved + n,
        ..p
    })
}

// After a call that failed: an interrupted one is made again.
fn after_error(p: Progress, interrupted: bool) -> Transfer
    ensures { result ≡ after_error p interrupted }
{
    if interrupted {
        return after_interruption(p);
    }
    Transfer::Failed
}

fn after_interruption(p: Progress) -> Transfer
    ensures { result ≡ after_interruption p }
{
    if p.tries == 0 {
        return Transfer::Failed;
    }
    Transfer::On(Progress {
        tries: p.tries - 1,
        ..p
    })
}
