// One PEB: both headers, the bytes of a LEB, and 0xFF elsewhere.
ghost use Rattle.std.specs.Prelude.{◌≡◌, true, ◌+◌, ◌*◌, ◌≤◌, length};
ghost use Rattle.base.specs.Lists.{put};
ghost use Rattle.geometry.specs.Placed.{Placed};
ghost use Rattle.header.specs.Ec.{ec_bytes};
ghost use Rattle.header.specs.Fields.{is_good};
ghost use Rattle.header.specs.Vid.{judge_vid};
ghost use Rattle.builder_rules.specs.Blocks.{built_ec, free_peb, used_peb};
ghost use Rattle.builder_fill.specs.Pebs.{headers_of};

use flash_writes::{erase, store_vid};
use geometry::Geometry;
use header::{EcHeader, VidHeader};

// The bytes of a header.
const HEADER_SIZE: usize = 64;

// What all PEBs of an image share: the geometry, the image sequence, and the bytes of the EC header that has both.
#[derive(Drop)]
pub struct Format {
    pub geometry: Geometry,
    pub image_seq: u32,
    ec: [u8; HEADER_SIZE],
    ghost placed: { Placed geometry },
    ghost made: { ec ≡ ec_bytes (built_ec geometry image_seq) },
}

impl Format {
    // The EC header is made here, once for all PEBs.
    pub fn new(geometry: Geometry, image_seq: u32) -> Format
        requires { Placed geometry }
        ensures geometry { result.geometry ≡ geometry }
        ensures image_seq { result.image_seq ≡ image_seq }
    {
        let h = EcHeader {
            version: 1,
            counter: 0,
            vid_start: geometry.vid_start,
            data_start: geometry.data_start,
            image_seq,
        };
        let mut ec = [0u8; HEADER_SIZE];
        ec_header::write_ec(h, &mut ec).unwrap();
        Format {
            geometry,
            image_seq,
            ec,
        }
    }

    // Where PEB p starts.
    pub fn peb_start(&self, p: usize) -> usize
        requires { p ≤ 4096 }
        ensures { result ≡ p * self.now.geometry.peb_size }
    {
        p * self.geometry.peb_size as usize
    }

    // The PEB from `at` on gets an EC header, and 0xFF.
    pub fn store_free(&self, image: &mut [u8], at: usize)
        requires { at + self.now.geometry.peb_size ≤ length image.old }
        ensures { image.new ≡ put at (free_peb self.now.geometry
            (built_ec self.now.geometry self.now.image_seq)) image.old }
    {
        erase(image, at, self.geometry.peb_size as usize);
        base::store(image, at, &self.ec)
    }

    // Both headers of the PEB from `at` on, and 0xFF between them and up to the data.
    fn store_headers(&self, image: &mut [u8], at: usize, vid: VidHeader)
        requires { (at + self.now.geometry.data_start ≤ length image.old)
            × (is_good (judge_vid self.now.geometry.leb_size vid) ≡ true) }
        ensures { image.new ≡ put at (headers_of self.now.geometry
            (built_ec self.now.geometry self.now.image_seq) vid) image.old }
    {
        let g = self.geometry;
        erase(image, at, g.data_start as usize);
        base::store(image, at, &self.ec);
        store_vid(vid, g.leb_size, image, at + g.vid_start as usize)
    }

    // The PEB from `at` on gets both headers and the bytes of a LEB, and 0xFF elsewhere.
    pub fn store_used(&self, image: &mut [u8], at: usize, vid: VidHeader, bytes: &[u8])
        requires { ((at + self.now.geometry.peb_size ≤ length image.old)
            × (length bytes.now ≤ self.now.geometry.leb_size))
            × (is_good (judge_vid self.now.geometry.leb_size vid) ≡ true) }
        ensures { image.new ≡ put at (used_peb self.now.geometry
            (built_ec self.now.geometry self.now.image_seq) vid bytes.now) image.old }
    {
        let g = self.geometry;
        self.store_headers(image, at, vid);
        let start = at + g.data_start as usize;
        base::store(image, start, bytes);
        erase(
            image,
            start + bytes.len(),
            g.leb_size as usize - bytes.len(),
        )
    }
}
