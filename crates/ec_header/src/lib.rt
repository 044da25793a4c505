// The erase counter header, read and written.
#![tactic(auto)]

ghost use Rattle.std.specs.Prelude.{◌≡◌, ◌≤◌, length};
ghost use Rattle.header.specs.Fields.{is_good, written, verdict_answer};
ghost use Rattle.header.specs.Ec.{ec_fields, judge_ec, ec_read, ec_answer, ec_written, ec_out};
ghost use Rattle.header.specs.Stores.{ec_stored};

use header::{
    EC_COUNTER, EC_DATA_START, EC_IMAGE_SEQ, EC_VERSION, EC_VID_START, EcHeader, ReadError,
    WriteError, begin, finish, get, is_header, set,
};

// "lost if .. the counter exceeds 0x7FFFFFFF"
const MOST_COUNTER: u64 = 0x7FFFFFFF;

// The fields in a header's bytes.
#[tactic(auto, unfolding(header::specs::Ec::ec_fields))]
fn ec_fields(s: &[u8]) -> EcHeader
    requires { 64 ≤ length s.now }
    ensures { result ≡ ec_fields s.now }
{
    EcHeader {
        version: get(s, EC_VERSION) as u8,
        counter: get(s, EC_COUNTER),
        vid_start: get(s, EC_VID_START) as u32,
        data_start: get(s, EC_DATA_START) as u32,
        image_seq: get(s, EC_IMAGE_SEQ) as u32,
    }
}

// What the fields of a header with magic and CRC right make it.
#[tactic(auto, unfolding(header::specs::Ec::judge_ec, header::specs::Ec::ec_rules))]
fn judge_ec(h: EcHeader) -> Result<EcHeader, ReadError>
    ensures { ec_answer result ≡ verdict_answer (judge_ec h) }
{
    if h.version == 0 {
        return Err(ReadError::Bad);
    }
    if h.version != 1 {
        return Err(ReadError::Newer);
    }
    if MOST_COUNTER < h.counter {
        return Err(ReadError::Bad);
    }
    Ok(h)
}

// The EC header at the start of a slice.
#[tactic(auto, unfolding(header::specs::Ec::ec_read, header::specs::Ec::read_ec))]
pub fn read_ec(header: &[u8]) -> Result<EcHeader, ReadError>
    ensures { ec_answer result ≡ ec_read header.now }
{
    if header.len() < 64 {
        return Err(ReadError::Short);
    }
    if !is_header(header, b"UBI#") {
        return Err(ReadError::Bad);
    }
    judge_ec(ec_fields(header))
}

// Would the reader call the header good?
#[tactic(auto, unfolding(header::specs::Ec::judge_ec, header::specs::Ec::ec_rules))]
pub fn ec_readable(h: EcHeader) -> bool
    ensures { result ≡ is_good (judge_ec h) }
{
    h.version == 1 && h.counter <= MOST_COUNTER
}

// The fields are stored.
#[tactic(auto, unfolding(header::specs::Stores::ec_stored))]
fn set_ec_fields(h: EcHeader, out: &mut [u8])
    requires { 64 ≤ length out.old }
    ensures { out.new ≡ ec_stored h out.old }
{
    set(out, EC_VERSION, h.version as u64);
    set(out, EC_COUNTER, h.counter);
    set(out, EC_VID_START, h.vid_start as u64);
    set(out, EC_DATA_START, h.data_start as u64);
    set(out, EC_IMAGE_SEQ, h.image_seq as u64);
}

// The header is written to the first 64 bytes, with its CRC and zero padding.
pub fn write_ec(h: EcHeader, out: &mut [u8]) -> Result<(), WriteError>
    ensures { (written result ≡ ec_written h out.old) × (out.new ≡ ec_out h out.old) }
{
    if out.len() < 64 {
        return Err(WriteError::Short);
    }
    if !ec_readable(h) {
        return Err(WriteError::NotGood);
    }
    begin(out, b"UBI#");
    set_ec_fields(h, out);
    finish(out);
    Ok(())
}
