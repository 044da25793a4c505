// Attaching and its checksum as C calls them: what bench/ links and times. C passes a slice as a pointer and then a
// length.
#![tactic(auto)]

ghost use Rattle.std.specs.Prelude.{◌≡◌};
ghost use Rattle.crc32.specs.Crc.{crc_from};
ghost use Rattle.report.specs.Attach.{lent, request, attaching_into, attached_answer, answer_of, tables_after};
ghost use Rattle.bench_attach.specs.Code.{code_of};

use report::{Refused, Report};

fn code(a: Result<Report, Refused>) -> u64
    ensures { result ≡ code_of (attached_answer a) }
{
    match a {
        Ok(report) => report.grade as u64,
        Err(e) => e.number as u64 + 16,
    }
}

// The report's grade, or 16 and the refusal's number.
#[unsafe(no_mangle)]
pub extern "C" fn bench_attach(
    slip: &[u8],
    image: &[u8],
    pebs: &mut [u32],
    map: &mut [u32],
    states: &mut [u32],
) -> u64
    ensures answer { result
        ≡ code_of (answer_of (attaching_into (request slip.now) image.now
        (lent pebs.old map.old states.old))) }
    ensures tables { lent pebs.new map.new states.new
        ≡ tables_after
        (attaching_into (request slip.now) image.now
        (lent pebs.old map.old states.old))
        (lent pebs.old map.old states.old) }
{
    let a = attach::attach(slip, image, pebs, map, states);
    code(a)
}

#[unsafe(no_mangle)]
pub extern "C" fn bench_attach_crc(state: u32, bytes: &[u8]) -> u32
    ensures { result ≡ crc_from state bytes.now }
{
    crc32::update(state, bytes)
}
