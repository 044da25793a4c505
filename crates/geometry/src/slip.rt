// The slip: a run of fields, each a one-byte tag, a two-byte length and a value; a head of three numbers, and a tail.
ghost use Rattle.std.specs.Prelude.{◌≡◌};
ghost use Rattle.base.specs.Answers.{all_of};
ghost use Rattle.geometry.specs.Geometry.{geometry_read};
ghost use Rattle.geometry.specs.Slip.{head_rules, head_read, ends_at, slip_geometry};

use crate::rules::check_geometry;
use crate::{Geometry, SlipError};

// The bytes of the three fields of the head.
pub const HEAD_SIZE: usize = 17;

// Does the slip begin with PEB size, unit and sub-unit?
fn has_head(slip: &[u8]) -> bool
    ensures { result ≡ all_of (head_rules slip.now) }
{
    if slip.len() < HEAD_SIZE {
        return false;
    }
    if !base::same(&slip[0..3], b"\x01\x00\x04") {
        return false;
    }
    if !base::same(&slip[7..10], b"\x02\x00\x02") {
        return false;
    }
    base::same(&slip[12..15], b"\x03\x00\x02")
}

// Is the field at `at` the last one, tag 0?
pub fn ends_at(slip: &[u8], at: usize) -> bool
    ensures { result ≡ ends_at at slip.now }
{
    if slip.len() < at {
        return false;
    }
    base::same(&slip[at..], b"\x00\x00\x00")
}

// The geometry that the head of a slip gives, whatever follows it.
pub fn read_head(slip: &[u8]) -> Result<Geometry, SlipError>
    ensures { geometry_read result ≡ head_read slip.now }
{
    if !has_head(slip) {
        return Err(SlipError::Malformed);
    }
    let peb_size = field::read(slip, 3, 4) as u32;
    let unit = field::read(slip, 10, 2) as u32;
    let sub_unit = field::read(slip, 15, 2) as u32;
    check_geometry(peb_size, unit, sub_unit)
}

// The geometry that a slip gives.
pub fn read_slip(slip: &[u8]) -> Result<Geometry, SlipError>
    ensures { geometry_read result ≡ slip_geometry slip.now }
{
    if !ends_at(slip, HEAD_SIZE) {
        return Err(SlipError::Malformed);
    }
    read_head(slip)
}
