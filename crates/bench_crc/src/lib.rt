// The checksum as C calls it: what bench/ links and times.
#![tactic(auto)]

ghost use Rattle.std.specs.Prelude.{◌≡◌};
ghost use Rattle.crc32.specs.Crc.{crc_from};

// C passes the slice as a pointer and then a length.
#[unsafe(no_mangle)]
pub extern "C" fn bench_crc_update(state: u32, bytes: &[u8]) -> u32
    ensures { result ≡ crc_from state bytes.now }
{
    crc32::update(state, bytes)
}
