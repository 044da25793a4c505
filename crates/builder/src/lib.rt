// Production images: a whole image of flash, filled from a list of volumes and their contents.
#![tactic(auto)]

ghost use Rattle.std.specs.Prelude.{◌≡◌, true, ◌*◌, length};
ghost use Rattle.base.specs.Answers.{given, all_of};
ghost use Rattle.geometry.specs.Image.{image_rules};
ghost use Rattle.geometry.specs.Placed.{Placed};
ghost use Rattle.volume_table.specs.Table.{record_count};
ghost use Rattle.builder_rules.specs.Slip.{volume_count};
ghost use Rattle.builder_rules.specs.Build.{build_by, building, without_plan, image_after, built_answer};

use builder_content::content_fits;
use builder_fill::fill_image;
use builder_table::volumes_good;
use geometry::Geometry;
use report::{Refused, refusal};
use volume_record::RECORD_SIZE;
use volume_table::record_count;

// No table is longer: 128 records.
const MAX_TABLE: usize = 22016;

// An image of whole PEBs: refusals 20 and 21, or it is filled. `table` is as long as the records.
fn build_with(
    slip: &[u8],
    count: usize,
    g: Geometry,
    image_seq: u32,
    lengths: &[u32],
    content: &[u8],
    image: &mut [u8],
    table: &mut [u8],
) -> Result<(), Refused>
    requires { (Placed g × (count ≡ volume_count slip.now)) × ((all_of (image_rules g image.old) ≡ true)
        × (length table.old ≡ record_count g.leb_size * 172)) }
    ensures answer { built_answer result ≡ without_plan (build_by slip.now image_seq lengths.now
        content.now image.old (given g)) }
    ensures image { image.new ≡ image_after (build_by slip.now image_seq
        lengths.now content.now image.old (given g)) image.old }
{
    let n = image.len() / g.peb_size as usize;
    if !volumes_good(slip, count, g, n as u32, table) {
        return Err(Refused::unplaced(refusal::BAD_VOLUMES));
    }
    if !content_fits(table, count, g, lengths, content) {
        return Err(Refused::unplaced(refusal::BAD_CONTENT));
    }
    fill_image(image, g, image_seq, table, lengths, content);
    Ok(())
}

// An image of a known geometry: refusal 3, and the rest, with memory for a table.
fn build_chip(
    slip: &[u8],
    count: usize,
    g: Geometry,
    image_seq: u32,
    lengths: &[u32],
    content: &[u8],
    image: &mut [u8],
    table: &mut [u8],
) -> Result<(), Refused>
    requires { (Placed g × (count ≡ volume_count slip.now)) × (length table.old ≡ 22016) }
    ensures answer { built_answer result ≡ without_plan (build_by slip.now image_seq lengths.now
        content.now image.old (given g)) }
    ensures image { image.new ≡ image_after (build_by slip.now image_seq
        lengths.now content.now image.old (given g)) image.old }
{
    if !geometry::image_fits(image, g) {
        return Err(Refused::unplaced(refusal::BAD_IMAGE_SIZE));
    }
    let len = record_count(g.leb_size) * RECORD_SIZE;
    build_with(
        slip,
        count,
        g,
        image_seq,
        lengths,
        content,
        image,
        &mut table[0..len],
    )
}

// The lent image is filled with the volumes of the slip and their contents, one after another; or it stays as it is.
#[tactic(auto, using(crate::proofs::Laws::malformed_answer, crate::proofs::Laws::malformed_image))]
pub fn build(
    slip: &[u8],
    image_seq: u32,
    lengths: &[u32],
    content: &[u8],
    image: &mut [u8],
) -> Result<(), Refused>
    ensures answer { built_answer result ≡ without_plan (building slip.now image_seq
        lengths.now content.now image.old) }
    ensures image { image.new ≡ image_after (building slip.now image_seq
        lengths.now content.now image.old) image.old }
{
    let fields = builder_slip::volume_fields(slip);
    let g = builder_slip::read_slip(slip, fields.end)?;
    let mut table = [0u8; MAX_TABLE];
    build_chip(
        slip,
        fields.count,
        g,
        image_seq,
        lengths,
        content,
        image,
        &mut table,
    )
}
