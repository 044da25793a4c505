// The fields of headers, in the order of their bytes: as a payload has them, and as numbers on a line.
ghost use Rattle.std.specs.Prelude.{◌≤◌};

use crate::{next_number, number_at, u8_at, u32_at};
use header::{EcHeader, VidHeader};

// The 21 bytes from `at` on.
pub fn ec_at(payload: &[u8], at: usize) -> EcHeader
    requires { at ≤ 65536 }
{
    EcHeader {
        version: u8_at(payload, at),
        counter: number_at(payload, at + 1, 8),
        vid_start: u32_at(payload, at + 9),
        data_start: u32_at(payload, at + 13),
        image_seq: u32_at(payload, at + 17),
    }
}

// The 36 bytes from `at` on.
pub fn vid_at(payload: &[u8], at: usize) -> VidHeader
    requires { at ≤ 65536 }
{
    VidHeader {
        version: u8_at(payload, at),
        vol_type: u8_at(payload, at + 1),
        copy_flag: u8_at(payload, at + 2),
        compat: u8_at(payload, at + 3),
        volume: u32_at(payload, at + 4),
        lnum: u32_at(payload, at + 8),
        data_size: u32_at(payload, at + 12),
        used_lebs: u32_at(payload, at + 16),
        data_pad: u32_at(payload, at + 20),
        data_crc: u32_at(payload, at + 24),
        sequence: number_at(payload, at + 28, 8),
    }
}

pub fn print_ec(h: EcHeader) {
    next_number(h.version as u64);
    next_number(h.counter);
    next_number(h.vid_start as u64);
    next_number(h.data_start as u64);
    next_number(h.image_seq as u64);
}

pub fn print_vid(h: VidHeader) {
    next_number(h.version as u64);
    next_number(h.vol_type as u64);
    next_number(h.copy_flag as u64);
    next_number(h.compat as u64);
    next_number(h.volume as u64);
    next_number(h.lnum as u64);
    next_number(h.data_size as u64);
    next_number(h.used_lebs as u64);
    next_number(h.data_pad as u64);
    next_number(h.data_crc as u64);
    next_number(h.sequence);
}
