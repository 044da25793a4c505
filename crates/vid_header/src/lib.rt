// The volume identifier header, read and written.
#![tactic(auto)]

ghost use Rattle.std.specs.Prelude.{◌≡◌, ◌≤◌, length};
ghost use Rattle.header.specs.Fields.{is_good, written, verdict_answer};
ghost use Rattle.header.specs.Vid.{vid_fields, IsVidField, vid_field, judge_vid, vid_read, vid_answer, vid_written};
ghost use Rattle.header.specs.Vid.{vid_out};
ghost use Rattle.header.specs.Stores.{kind_stored, volume_stored, data_stored};

use header::{
    ReadError, VID_COMPAT, VID_COPY_FLAG, VID_DATA_CRC, VID_DATA_PAD, VID_DATA_SIZE, VID_LNUM,
    VID_SEQUENCE, VID_TYPE, VID_USED_LEBS, VID_VERSION, VID_VOLUME, VidHeader, WriteError, begin,
    finish, get, is_header, set,
};
use vid_rules::rules_hold;

// The fields in a header's bytes.
#[tactic(auto, unfolding(header::specs::Vid::vid_fields))]
pub fn vid_fields(s: &[u8]) -> VidHeader
    requires { 64 ≤ length s.now }
    ensures { result ≡ vid_fields s.now }
{
    VidHeader {
        version: get(s, VID_VERSION) as u8,
        vol_type: get(s, VID_TYPE) as u8,
        copy_flag: get(s, VID_COPY_FLAG) as u8,
        compat: get(s, VID_COMPAT) as u8,
        volume: get(s, VID_VOLUME) as u32,
        lnum: get(s, VID_LNUM) as u32,
        data_size: get(s, VID_DATA_SIZE) as u32,
        used_lebs: get(s, VID_USED_LEBS) as u32,
        data_pad: get(s, VID_DATA_PAD) as u32,
        data_crc: get(s, VID_DATA_CRC) as u32,
        sequence: get(s, VID_SEQUENCE),
    }
}

// The number in field i of the VID header at the start of a slice.
pub fn vid_field(header: &[u8], i: usize) -> u64
    requires { (IsVidField i) × (64 ≤ length header.now) }
    ensures { result ≡ vid_field i (vid_fields header.now) }
{
    get(header, i)
}

// What the fields of a header with magic and CRC right make it.
#[tactic(auto, unfolding(header::specs::Vid::judge_vid))]
fn judge_vid(h: VidHeader, leb_size: u32) -> Result<VidHeader, ReadError>
    ensures { vid_answer result ≡ verdict_answer (judge_vid leb_size h) }
{
    if h.version == 0 {
        return Err(ReadError::Bad);
    }
    if h.version != 1 {
        return Err(ReadError::Newer);
    }
    if !rules_hold(h, leb_size) {
        return Err(ReadError::Bad);
    }
    Ok(h)
}

// The VID header at the start of a slice, judged by the LEB size.
#[tactic(auto, unfolding(header::specs::Vid::vid_read, header::specs::Vid::read_vid))]
pub fn read_vid(header: &[u8], leb_size: u32) -> Result<VidHeader, ReadError>
    ensures { vid_answer result ≡ vid_read leb_size header.now }
{
    if header.len() < 64 {
        return Err(ReadError::Short);
    }
    if !is_header(header, b"UBI!") {
        return Err(ReadError::Bad);
    }
    judge_vid(vid_fields(header), leb_size)
}

// Would the reader call the header good?
pub fn vid_readable(h: VidHeader, leb_size: u32) -> bool
    ensures { result ≡ is_good (judge_vid leb_size h) }
{
    judge_vid(h, leb_size).is_ok()
}

// Version, type, copy flag and compatibility are stored.
#[tactic(auto, unfolding(header::specs::Stores::kind_stored))]
fn set_kind(h: VidHeader, out: &mut [u8])
    requires { 64 ≤ length out.old }
    ensures { out.new ≡ kind_stored h out.old }
{
    set(out, VID_VERSION, h.version as u64);
    set(out, VID_TYPE, h.vol_type as u64);
    set(out, VID_COPY_FLAG, h.copy_flag as u64);
    set(out, VID_COMPAT, h.compat as u64);
}

// Volume, LEB and sequence are stored.
#[tactic(auto, unfolding(header::specs::Stores::volume_stored))]
fn set_volume(h: VidHeader, out: &mut [u8])
    requires { 64 ≤ length out.old }
    ensures { out.new ≡ volume_stored h out.old }
{
    set(out, VID_VOLUME, h.volume as u64);
    set(out, VID_LNUM, h.lnum as u64);
    set(out, VID_SEQUENCE, h.sequence);
}

// Data size, used LEBs, data pad and data CRC are stored.
#[tactic(auto, unfolding(header::specs::Stores::data_stored))]
fn set_data(h: VidHeader, out: &mut [u8])
    requires { 64 ≤ length out.old }
    ensures { out.new ≡ data_stored h out.old }
{
    set(out, VID_DATA_SIZE, h.data_size as u64);
    set(out, VID_USED_LEBS, h.used_lebs as u64);
    set(out, VID_DATA_PAD, h.data_pad as u64);
    set(out, VID_DATA_CRC, h.data_crc as u64);
}

// The header is written to the first 64 bytes, with its CRC and zero padding.
pub fn write_vid(h: VidHeader, leb_size: u32, out: &mut [u8]) -> Result<(), WriteError>
    ensures { (written result ≡ vid_written leb_size h out.old)
        × (out.new ≡ vid_out leb_size h out.old) }
{
    if out.len() < 64 {
        return Err(WriteError::Short);
    }
    if !vid_readable(h, leb_size) {
        return Err(WriteError::NotGood);
    }
    begin(out, b"UBI!");
    set_kind(h, out);
    set_volume(h, out);
    set_data(h, out);
    finish(out);
    Ok(())
}
