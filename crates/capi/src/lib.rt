// The library as C calls it: include/choduljin.h documents every function, word and answer. C passes a slice as a
// pointer and then a length. Structs are words that C lends.
#![tactic(auto)]

mod attaching;
mod building;
mod headers;
mod moving;

ghost use Rattle.std.specs.Prelude.{◌≡◌};

// 0.12.0, a byte each.
#[unsafe(no_mangle)]
pub extern "C" fn choduljin_version() -> u32
    ensures { result ≡ 0x000C00 }
{
    0x000C00
}
