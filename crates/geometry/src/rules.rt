// The rules of PEB size, unit and sub-unit.
ghost use Rattle.std.specs.Prelude.{◌≡◌, ◌+◌, ◌<◌};
ghost use Rattle.geometry.specs.Geometry.{good_unit, round_up, geometry_of, geometry_read};

use crate::{Geometry, SlipError};

// "PEB size is 1,024 to 262,144"
const MOST_PEB_SIZE: u32 = 262144;

// Is n a power of two from 1 to 4,096?
fn is_unit(n: u32) -> bool
    ensures { result ≡ good_unit n }
{
    n.is_power_of_two() && n <= 4096
}

// The smallest multiple of m that is at least x.
fn round_up(x: u32, m: u32) -> u32
    requires { (x < 65536) × ((0 < m) × (m < 65536)) }
    ensures { (result ≡ round_up m x) × (result < x + m) }
{
    (x + (m - 1)) / m * m
}

// The geometry of three numbers, where they are within the rules.
pub fn check_geometry(peb_size: u32, unit: u32, sub_unit: u32) -> Result<Geometry, SlipError>
    ensures { geometry_read result ≡ geometry_of peb_size unit sub_unit }
{
    if !is_unit(unit) {
        return Err(SlipError::Outside);
    }
    if !is_unit(sub_unit) {
        return Err(SlipError::Outside);
    }
    if unit < sub_unit {
        return Err(SlipError::Outside);
    }
    if peb_size < 1024 {
        return Err(SlipError::Outside);
    }
    if MOST_PEB_SIZE < peb_size {
        return Err(SlipError::Outside);
    }
    if peb_size % unit != 0 {
        return Err(SlipError::Outside);
    }
    let vid_start = round_up(64, sub_unit);
    let data_start = round_up(vid_start + 64, unit);
    if peb_size < data_start + 172 {
        return Err(SlipError::Outside);
    }
    Ok(Geometry {
        peb_size,
        unit,
        sub_unit,
        vid_start,
        data_start,
        leb_size: peb_size - data_start,
    })
}
