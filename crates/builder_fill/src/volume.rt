// The LEBs of one volume.
ghost use Rattle.std.specs.Prelude.{◌≡◌, ◌+◌, ◌-◌, ◌*◌, ◌^◌, ◌≤◌, ◌<◌, length};
ghost use Rattle.base.specs.Below.{concat_below};
ghost use Rattle.base.specs.Lists.{put};
ghost use Rattle.volume_record.specs.Record.{record_of};
ghost use Rattle.volume_table.specs.Table.{record_at};
ghost use Rattle.builder_rules.specs.Blocks.{built_ec, user_vid, ceiling};
ghost use Rattle.builder_fill.specs.Pebs.{leb_peb, VolumeReady};

use crate::blocks::Format;
use builder_rules::VolumeShape;
use header::{COMPAT_NONE, STATIC, VidHeader};
use volume_record::{RECORD_DATA_PAD, RECORD_SIZE, RECORD_TYPE, get_field};

// How many LEBs of so much room the bytes take.
fn lebs_for(len: u32, room: u32) -> u32
    requires { 0 < room }
    ensures { result ≡ ceiling room len }
{
    let room = room as u64;
    ((len as u64 + (room - 1)) / room) as u32
}

// Volume v of a table, with so many bytes of content.
pub fn shape_of(table: &[u8], v: u32, leb_size: u32, len: u32) -> VolumeShape
    requires { (v < 128) × ((172 * v + 172 ≤ length table.now)
        × ((record_of (record_at table.now v)).data_pad < leb_size)) }
    ensures { result ≡ record {
      volume = v;
      vol_type = (record_of (record_at table.now v)).vol_type;
      data_pad = (record_of (record_at table.now v)).data_pad;
      lebs = ceiling (leb_size - (record_of (record_at table.now v)).data_pad) len;
    } }
{
    let at = RECORD_SIZE * v as usize;
    let record = &table[at..at + RECORD_SIZE];
    let data_pad = get_field(record, RECORD_DATA_PAD) as u32;
    let room = leb_size - data_pad;
    VolumeShape {
        volume: v,
        vol_type: get_field(record, RECORD_TYPE) as u8,
        data_pad,
        lebs: lebs_for(len, room),
    }
}

// The VID header of LEB `lnum` of a volume, with its bytes. Those of a dynamic volume say nothing of the bytes.
fn leb_header(v: VolumeShape, sequence: u64, lnum: u32, bytes: &[u8]) -> VidHeader
    requires { length bytes.now < 2 ^ 32 }
    ensures { result ≡ user_vid v sequence lnum bytes.now }
{
    let mut h = VidHeader {
        version: 1,
        vol_type: v.vol_type,
        copy_flag: 0,
        compat: COMPAT_NONE,
        volume: v.volume,
        lnum,
        data_size: 0,
        used_lebs: 0,
        data_pad: v.data_pad,
        data_crc: 0,
        sequence,
    };
    if v.vol_type == STATIC {
        h.data_size = bytes.len() as u32;
        h.used_lebs = v.lebs;
        h.data_crc = crc32::crc32(bytes);
    }
    h
}

// The LEBs of a volume are stored in the PEBs from `first` on.
pub fn fill_volume(image: &mut [u8], f: &Format, v: VolumeShape, content: &[u8], first: usize)
    requires { VolumeReady f.now.geometry v content.now first image.old }
    ensures { image.new ≡ put (first * f.now.geometry.peb_size)
        (concat_below v.lebs
        (leb_peb f.now.geometry (built_ec f.now.geometry f.now.image_seq) v content.now first)) image.old }
{
    let room = (f.geometry.leb_size - v.data_pad) as usize;
    for l in 0..v.lebs {
        let from = l as usize * room;
        // those of the last LEB may be fewer
        let bytes = &content[from..from + room.min(content.len() - from)];
        let p = first + l as usize;
        // sequences from 1, in the order of the PEBs
        let vid = leb_header(v, p as u64 + 1, l, bytes);
        f.store_used(image, f.peb_start(p), vid, bytes);
    }
}
