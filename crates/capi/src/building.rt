// A production image.
ghost use Rattle.std.specs.Prelude.{◌≡◌};
ghost use Rattle.builder_rules.specs.Build.{building, image_after, built_answer};
ghost use Rattle.capi_answers.specs.Calls.{number_of};

use report::Refused;

// An answer of the builder as one number; its place is always 0.
fn build_number(b: Result<(), Refused>) -> u32
    ensures { result ≡ number_of (built_answer b) }
{
    match b {
        Ok(()) => 0,
        Err(e) => e.number,
    }
}

// The lent image is filled with the volumes of the slip and their contents, or stays as it is.
#[unsafe(no_mangle)]
pub extern "C" fn choduljin_build(
    slip: &[u8],
    image_seq: u32,
    lengths: &[u32],
    content: &[u8],
    image: &mut [u8],
) -> u32
    ensures answer { result ≡ number_of (building slip.now image_seq lengths.now
        content.now image.old) }
    ensures image { image.new ≡ image_after (building slip.now image_seq
        lengths.now content.now image.old) image.old }
{
    let b = builder::build(slip, image_seq, lengths, content, image);
    build_number(b)
}
