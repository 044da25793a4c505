// A copy of a logical block (LEB), read where it stands in the image: its header's fields and its data run.
#![tactic(auto)]

ghost use Rattle.std.specs.Prelude.{◌≡◌, ◌+◌, ◌*◌, ◌≤◌, length};
ghost use Rattle.geometry.specs.Placed.{Placed};
ghost use Rattle.header.specs.Vid.{IsVidField, vid_field};
ghost use Rattle.report.specs.Choice.{sound};
ghost use Rattle.copies.specs.InPlace.{header_at, copy_at, HasCopy};

use geometry::Geometry;
use header::{VID_COPY_FLAG, VID_DATA_CRC, VID_DATA_SIZE};

// The number in a field of PEB i's VID header.
pub fn header_field(image: &[u8], g: Geometry, i: usize, field: usize) -> u64
    requires { (Placed g) × (((i + 1) * g.peb_size ≤ length image.now) × (IsVidField field)) }
    ensures { result ≡ vid_field field (header_at g image.now i) }
{
    let at = i * g.peb_size as usize + g.vid_start as usize;
    vid_header::vid_field(&image[at..at + 64], field)
}

// Is the data CRC of PEB i's copy that of its first data_size bytes?
pub fn matches(image: &[u8], g: Geometry, i: usize) -> bool
    requires { HasCopy g image.now i }
    ensures { result ≡ (copy_at g image.now i).matches }
{
    let size = header_field(image, g, i, VID_DATA_SIZE) as usize;
    let at = i * g.peb_size as usize + g.data_start as usize;
    crc32::crc32(&image[at..at + size]) as u64 == header_field(image, g, i, VID_DATA_CRC)
}

// Is PEB i's copy sound? Its CRC is computed only if its flag is set.
#[tactic(auto, unfolding(report::specs::View::copy_of))]
pub fn is_sound(image: &[u8], g: Geometry, i: usize) -> bool
    requires { HasCopy g image.now i }
    ensures { result ≡ sound (copy_at g image.now i) }
{
    header_field(image, g, i, VID_COPY_FLAG) == 0 || matches(image, g, i)
}
