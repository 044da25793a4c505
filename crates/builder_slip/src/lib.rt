// The builder's slip: the head of an image's slip, a field for each volume, and the tail.
#![tactic(auto)]

ghost use Rattle.std.specs.Prelude.{◌≡◌, cond, ◌+◌, ◌≤◌, length, Some, None};
ghost use Rattle.geometry.specs.Geometry.{geometry_read};
ghost use Rattle.builder_rules.specs.Slip.{length_at, volume_field_at, field_start, volume_count, builder_geometry};

use geometry::{Geometry, HEAD_SIZE, SlipError};

// The tag and the length of a field, before its value.
pub const FIELD_HEAD_SIZE: usize = 3;

// The volume fields of a slip: how many, and where the field after them starts.
#[derive(Clone, Copy)]
pub struct VolumeFields {
    pub count: usize,
    pub end: usize,
}

// Where the volume field at `at` ends, if one is there.
fn field_end(slip: &[u8], at: usize) -> Option<usize>
    requires { at ≤ length slip.now }
    ensures { result ≡ cond (volume_field_at slip.now at) (Some (at + (3 + length_at slip.now at))) None }
{
    let left = slip.len() - at;
    if left < FIELD_HEAD_SIZE {
        return None;
    }
    if !base::same(&slip[at..at + 1], b"\x10") {
        return None;
    }
    let len = field::read(slip, at + 1, 2) as usize;
    if left < FIELD_HEAD_SIZE + len {
        return None;
    }
    Some(at + (FIELD_HEAD_SIZE + len))
}

// The volume fields behind the head.
pub fn volume_fields(slip: &[u8]) -> VolumeFields
    ensures count { result.count ≡ volume_count slip.now }
    ensures end { result.end ≡ field_start slip.now (volume_count slip.now) }
{
    let mut at = HEAD_SIZE;
    let mut count: usize = 0;
    if slip.len() < HEAD_SIZE {
        return VolumeFields { count, end: at };
    }
    // `while`: where the next field starts is read from the slip.
    while let Some(end) = field_end(slip, at) {
        at = end;
        count += 1;
    }
    VolumeFields { count, end: at }
}

// The geometry that a slip gives whose volume fields end at `end`.
pub fn read_slip(slip: &[u8], end: usize) -> Result<Geometry, SlipError>
    requires { end ≡ field_start slip.now (volume_count slip.now) }
    ensures { geometry_read result ≡ builder_geometry slip.now }
{
    if !geometry::ends_at(slip, end) {
        return Err(SlipError::Malformed);
    }
    geometry::read_head(slip)
}
