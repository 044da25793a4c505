// The copy that is moved: whether its data are right, and the new VID header.
#![tactic(auto)]

ghost use Rattle.std.specs.Prelude.{◌≡◌, ◌+◌, ◌-◌, ◌^◌, ◌≤◌, ◌<◌, length, take, drop};
ghost use Rattle.base.specs.Lists.{part};
ghost use Rattle.crc32.specs.Crc.{crc_of};
ghost use Rattle.geometry.specs.Geometry.{round_up};
ghost use Rattle.geometry.specs.Placed.{Placed};
ghost use Rattle.report.specs.View.{copy_of};
ghost use Rattle.mover_rules.specs.Headers.{data_end, new_size};
ghost use Rattle.mover_copy.specs.Examined.{Fits, damaged_as, examined, renewed_as};

use geometry::Geometry;
use header::{STATIC, VidHeader};

// What the data of a copy say. A flag beside the rest, since `examine` promises that of a damaged copy too.
#[derive(Clone, Copy)]
pub struct Examined {
    // is it unsound, or static with a wrong data CRC?
    pub damaged: bool,
    // copy flag, data size and data CRC under which it is stored anew
    pub flag: u8,
    pub size: u32,
    pub crc: u32,
}

// The CRCs of the data at the old and at the new data size.
#[derive(Clone, Copy)]
struct Crcs {
    old: u32,
    new: u32,
}

// The place after the last byte that is not 0xFF.
pub fn data_end(s: &[u8]) -> usize
    ensures { (result ≡ data_end s.now) × (result ≤ length s.now) }
{
    s.iter().rposition(|b| *b != 0xFF).map_or(0, |i| i + 1)
}

// The bytes of a dynamic copy that are worth moving: all up to the last that is not 0xFF, in whole units.
fn content_size(p: &[u8], g: Geometry, pad: u32) -> u32
    requires { (Placed g) × ((length p.now ≡ g.peb_size) × (pad ≤ g.leb_size)) }
    ensures { (result
        ≡ round_up g.unit (data_end (take (g.leb_size - pad) (drop g.data_start p.now))))
        × (result ≤ g.leb_size) }
{
    let at = g.data_start as usize;
    let end = data_end(&p[at..at + (g.leb_size - pad) as usize]);
    let unit = g.unit as usize;
    ((end + (unit - 1)) / unit * unit) as u32
}

// The new data size of the copy with the header h, in the PEB with the bytes p.
fn new_size(p: &[u8], g: Geometry, h: VidHeader) -> u32
    requires { Fits g p.now h }
    ensures { (result ≡ new_size g (copy_of g p.now h)) × (g.data_start + result ≤ length p.now) }
{
    if h.vol_type == STATIC {
        return h.data_size;
    }
    content_size(p, g, h.data_pad)
}

// The CRC of the first `to` data bytes, from that of the first `from`.
fn extend_crc(p: &[u8], g: Geometry, crc: u32, from: u32, to: u32) -> u32
    requires { (crc ≡ crc_of (part g.data_start from p.now))
        × ((from ≤ to) × (g.data_start + to ≤ length p.now)) }
    ensures { result ≡ crc_of (part g.data_start to p.now) }
{
    let at = g.data_start as usize;
    crc32::update(crc, &p[at + from as usize..at + to as usize])
}

// The CRCs of the first `old` and of the first `new` data bytes. The longer run goes on where the shorter ends, so that
// no byte is checksummed twice; 0xFFFFFFFF is the CRC of no bytes.
fn both_crcs(p: &[u8], g: Geometry, old: u32, new: u32) -> Crcs
    requires { (g.data_start + old ≤ length p.now) × (g.data_start + new ≤ length p.now) }
    ensures { (result.old ≡ crc_of (part g.data_start old p.now))
        × (result.new ≡ crc_of (part g.data_start new p.now)) }
{
    if old < new {
        let crc = extend_crc(p, g, 0xFFFFFFFF, 0, old);
        return Crcs {
            old: crc,
            new: extend_crc(p, g, crc, old, new),
        };
    }
    let crc = extend_crc(p, g, 0xFFFFFFFF, 0, new);
    Crcs {
        old: extend_crc(p, g, crc, new, old),
        new: crc,
    }
}

// Is a copy with the header h unsound, or static with a wrong data CRC?
fn is_damaged(h: VidHeader, matches: bool) -> bool
    ensures { result ≡ damaged_as h matches }
{
    !matches && (h.copy_flag != 0 || h.vol_type == STATIC)
}

// What the data of the copy with the header h say.
pub fn examine(p: &[u8], g: Geometry, h: VidHeader) -> Examined
    requires { Fits g p.now h }
    ensures { result ≡ examined g (copy_of g p.now h) }
{
    let size = new_size(p, g, h);
    let crcs = both_crcs(p, g, h.data_size, size);
    let damaged = is_damaged(h, crcs.old == h.data_crc);
    if h.vol_type == STATIC {
        return Examined {
            damaged,
            flag: 1,
            size,
            crc: h.data_crc,
        };
    }
    if size == 0 {
        return Examined {
            damaged,
            flag: 0,
            size,
            crc: 0,
        };
    }
    Examined {
        damaged,
        flag: 1,
        size,
        crc: crcs.new,
    }
}

// The VID header under which the copy is stored anew.
pub fn new_vid(h: VidHeader, found: Examined, highest: u64) -> VidHeader
    requires { highest + 1 < 2 ^ 64 }
    ensures { result ≡ renewed_as h found (highest + 1) }
{
    VidHeader {
        version: 1,
        vol_type: h.vol_type,
        copy_flag: found.flag,
        compat: h.compat,
        volume: h.volume,
        lnum: h.lnum,
        data_size: found.size,
        used_lebs: h.used_lebs,
        data_pad: h.data_pad,
        data_crc: found.crc,
        sequence: highest + 1,
    }
}
