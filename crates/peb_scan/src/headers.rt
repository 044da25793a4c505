// The two headers of a PEB.
ghost use Rattle.std.specs.Prelude.{◌≡◌, not, ◌&&◌, eqb, length};
ghost use Rattle.geometry.specs.Placed.{Placed};
ghost use Rattle.report.specs.View.{all_ff, is_mappable, view_of};
ghost use Rattle.peb_scan.specs.Seen.{ec_seen, vid_seen, no_header};

use crate::NoHeader;
use geometry::Geometry;
use header::{EcHeader, LAYOUT_VOLUME, ReadError, VidHeader};

// Is every byte 0xFF?
#[tactic(auto, using(crate::proofs::Laws::ff_is))]
pub fn all_ff(s: &[u8]) -> bool
    ensures { result ≡ all_ff s.now }
{
    s.iter().all(|b| *b == 0xFF)
}

// The EC header of the PEB with the bytes p.
pub fn see_ec(p: &[u8], g: Geometry) -> Result<EcHeader, NoHeader>
    requires { (Placed g) × (length p.now ≡ g.peb_size) }
    ensures { ec_seen result ≡ (view_of g p.now).ec }
{
    let s = &p[0..64];
    ec_header::read_ec(s).map_err(|e| no_header(e, s))
}

// What stands where the reader finds no good header.
fn no_header(e: ReadError, s: &[u8]) -> NoHeader
    ensures { result ≡ no_header e s.now }
{
    match e {
        ReadError::Newer => NoHeader::Newer,
        ReadError::Bad if all_ff(s) => NoHeader::Blank,
        ReadError::Bad | ReadError::Short => NoHeader::Bad,
    }
}

// The VID header of the PEB with the bytes p.
pub fn see_vid(p: &[u8], g: Geometry) -> Result<VidHeader, NoHeader>
    requires { (Placed g) × (length p.now ≡ g.peb_size) }
    ensures { vid_seen g p.now result ≡ (view_of g p.now).vid }
{
    let at = g.vid_start as usize;
    let s = &p[at..at + 64];
    vid_header::read_vid(s, g.leb_size).map_err(|e| no_header(e, s))
}

// Is the volume a user volume or the layout volume?
pub fn is_mappable(volume: u32) -> bool
    ensures { result ≡ is_mappable volume }
{
    volume < 128 || volume == LAYOUT_VOLUME
}

// Is it a block of another internal volume, with this compatibility?
pub fn is_internal(h: VidHeader, compat: u8) -> bool
    ensures { result ≡ (not (is_mappable h.volume) && eqb h.compat compat) }
{
    !is_mappable(h.volume) && h.compat == compat
}
