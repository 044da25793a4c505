// The listing program's whole job.
ghost use Rattle.std.specs.Prelude.{◌≡◌};
ghost use Rattle.geometry.specs.Slip.{slip_geometry};
ghost use Rattle.report.specs.Attach.{lent, attached_answer, answer_of, tables_after};
ghost use Rattle.listing.specs.Listing.{too_much, after_slip, program_tables, judging, listed, listed_out};
ghost use Rattle.listing_text.specs.Render.{rendered_answer, within};

use listing_text::TooShort;
use report::{Refused, Report, refusal};

// The bytes of a slip.
const SLIP_SIZE: usize = 20;

// The most bytes of slip and image: 60 KiB.
const MOST_INPUT: usize = 61440;

// Is there more input than the program holds?
fn too_much(input: &[u8], more: bool) -> bool
    ensures { result ≡ too_much input.now more }
{
    more || MOST_INPUT < input.len()
}

// More input than is held: refusal 1, 2 or 3.
fn refuse_long(slip: &[u8]) -> Result<Report, Refused>
    ensures { attached_answer result ≡ answer_of (after_slip (slip_geometry slip.now)) }
{
    geometry::read_slip(slip)?;
    Err(Refused::unplaced(refusal::BAD_IMAGE_SIZE))
}

// What the input comes to, in the program's tables.
fn judge(
    input: &[u8],
    more: bool,
    pebs: &mut [u32],
    map: &mut [u32],
    states: &mut [u32],
) -> Result<Report, Refused>
    requires { lent pebs.old map.old states.old ≡ program_tables }
    ensures answer { attached_answer result ≡ answer_of (judging input.now more) }
    ensures tables { lent pebs.new map.new states.new
        ≡ tables_after (judging input.now more) program_tables }
{
    // the slip ends after 20 bytes, or with the input
    let (slip, image) = input.split_at(SLIP_SIZE.min(input.len()));
    if too_much(input, more) {
        return refuse_long(slip);
    }
    attach::attach(slip, image, pebs, map, states)
}

fn list_into(
    input: &[u8],
    more: bool,
    pebs: &mut [u32],
    map: &mut [u32],
    states: &mut [u32],
    out: &mut [u8],
) -> Result<usize, TooShort>
    requires { lent pebs.old map.old states.old ≡ program_tables }
    ensures answer { rendered_answer result ≡ listed input.now more out.old }
    ensures out { out.new ≡ listed_out input.now more out.old }
    ensures room { within result out.new }
{
    let a = judge(input, more, pebs, map, states);
    listing_text::render(a, pebs, map, states, out)
}

// The text that is printed for the bytes read, at the start of the buffer; `more` says whether there was more input
// than they are.
#[tactic(auto, unfolding(crate::specs::Listing::program_tables))]
pub fn list(input: &[u8], more: bool, out: &mut [u8]) -> Result<usize, TooShort>
    ensures answer { rendered_answer result ≡ listed input.now more out.old }
    ensures out { out.new ≡ listed_out input.now more out.old }
    ensures room { within result out.new }
{
    let mut pebs = [0u32; 118];
    let mut map = [0u32; 177];
    let mut states = [0u32; 128];
    list_into(input, more, &mut pebs, &mut map, &mut states, out)
}
