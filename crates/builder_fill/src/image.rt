// The whole image: layout LEBs, volumes, and free PEBs.
ghost use Rattle.std.specs.Prelude.{◌≡◌, ◌+◌, ◌-◌, ◌*◌, ◌≤◌, ◌++◌, length};
ghost use Rattle.base.specs.Below.{sum_below, concat_below};
ghost use Rattle.base.specs.Lists.{put};
ghost use Rattle.geometry.specs.Image.{peb_count_of};
ghost use Rattle.builder_rules.specs.Blocks.{built_ec, free_peb, used_peb, layout_vid, lebs_of, built_image};
ghost use Rattle.builder_rules.specs.Filling.{plan_from, Accepted, Filled};

use crate::blocks::Format;
use crate::volume::{fill_volume, shape_of};
use geometry::Geometry;
use header::{COMPAT_REJECT, DYNAMIC, LAYOUT_VOLUME, VidHeader};

// The PEBs of the layout LEBs.
const LAYOUT_PEBS: usize = 2;

// The VID header of layout LEB `lnum`.
fn layout_vid(sequence: u64, lnum: u32) -> VidHeader
    ensures { result ≡ layout_vid sequence lnum }
{
    VidHeader {
        version: 1,
        vol_type: DYNAMIC,
        copy_flag: 0,
        compat: COMPAT_REJECT,
        volume: LAYOUT_VOLUME,
        lnum,
        data_size: 0,
        used_lebs: 0,
        data_pad: 0,
        data_crc: 0,
        sequence,
    }
}

// Both layout LEBs get the table.
fn fill_layout(image: &mut [u8], f: &Format, table: &[u8])
    requires { (2 * f.now.geometry.peb_size ≤ length image.old) × (length table.now ≤ f.now.geometry.leb_size) }
    ensures { image.new ≡ put 0
        (used_peb f.now.geometry (built_ec f.now.geometry f.now.image_seq) (layout_vid 1 0) table.now
        ++ used_peb f.now.geometry (built_ec f.now.geometry f.now.image_seq) (layout_vid 2 1) table.now)
        image.old }
{
    f.store_used(image, 0, layout_vid(1, 0), table);
    f.store_used(image, f.geometry.peb_size as usize, layout_vid(2, 1), table)
}

// The volumes' LEBs, in the PEBs behind the layout's; answers the PEB behind the last.
fn fill_volumes(
    image: &mut [u8],
    f: &Format,
    table: &[u8],
    lengths: &[u32],
    content: &[u8],
) -> usize
    requires { Accepted (plan_from f.now.geometry f.now.image_seq (length lengths.now)
        table.now lengths.now content.now) (peb_count_of f.now.geometry image.old)
        × Filled (plan_from f.now.geometry f.now.image_seq (length lengths.now)
        table.now lengths.now content.now) 2 image.old }
    ensures end { result ≡ 2 + sum_below (length lengths.now) (lebs_of (plan_from f.now.geometry
        f.now.image_seq (length lengths.now) table.now lengths.now content.now)) }
    ensures image { Filled (plan_from f.now.geometry f.now.image_seq (length lengths.now)
        table.now lengths.now content.now) result image.new }
{
    let mut p = LAYOUT_PEBS;
    let mut from: usize = 0;
    for (v, len) in lengths.iter().enumerate() {
        let shape = shape_of(table, v as u32, f.geometry.leb_size, *len);
        let end = from + *len as usize;
        fill_volume(image, f, shape, &content[from..end], p);
        p += shape.lebs as usize;
        from = end;
    }
    p
}

// The PEBs from `first` on, up to n of them in all, are free.
fn free_from(image: &mut [u8], f: &Format, first: usize, n: usize)
    requires { (first ≤ n) × ((n ≤ 4096) × (n * f.now.geometry.peb_size ≤ length image.old)) }
    ensures { image.new ≡ put (first * f.now.geometry.peb_size)
        (concat_below (n - first)
        (λ _. free_peb f.now.geometry (built_ec f.now.geometry f.now.image_seq))) image.old }
{
    for p in first..n {
        f.store_free(image, f.peb_start(p));
    }
}

// The whole image is filled, as a plan that nothing refuses says.
pub fn fill_image(
    image: &mut [u8],
    g: Geometry,
    image_seq: u32,
    table: &[u8],
    lengths: &[u32],
    content: &[u8],
)
    requires { Accepted (plan_from g image_seq (length lengths.now) table.now lengths.now content.now)
        (peb_count_of g image.old) × (length image.old ≡ peb_count_of g image.old * g.peb_size) }
    ensures { image.new ≡ built_image (plan_from g image_seq (length lengths.now)
        table.now lengths.now content.now) (peb_count_of g image.old) }
{
    let f = Format::new(g, image_seq);
    fill_layout(image, &f, table);
    let end = fill_volumes(image, &f, table, lengths, content);
    let n = image.len() / g.peb_size as usize;
    free_from(image, &f, end, n)
}
