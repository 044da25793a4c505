// A row of calls that read or write, each answered as std answers it.
ghost use Rattle.std.specs.Prelude.{◌≡◌, ◌↔◌, Bool, false, IfOk, IfErr, IsTrue, min, pos, negsuc};
ghost use Rattle.std.specs.IoError.{error_kind};
ghost use Rattle.transfer.specs.Transfer.{after_call};

use std::io;
use std::io::ErrorKind;
use transfer::{Progress, Transfer};

// After a call that answered `got`, where there is room for `room` bytes in all. C answers -1 for an error.
pub fn after(p: Progress, room: usize, got: &io::Result<usize>) -> Transfer
    ensures moved { IfOk got.now (λ n. result ≡ after_call room p (pos (min n 9223372036854775807)) false) }
    ensures failed { IfErr got.now (λ e. (interrupted : Bool)
        × (IsTrue interrupted ↔ (error_kind e ≡ ErrorKind.Interrupted))
        × (result ≡ after_call room p (negsuc 0) interrupted)) }
{
    match got {
        Ok(n) => transfer::after_call(p, room, to_answer(*n), false),
        Err(e) => transfer::after_call(p, room, -1, e.kind() == ErrorKind::Interrupted),
    }
}

// The number of bytes as C answers it. No call moves more bytes than that type holds.
fn to_answer(n: usize) -> isize
    ensures { result ≡ pos (min n 9223372036854775807) }
{
    n.min(isize::MAX as usize) as isize
}
