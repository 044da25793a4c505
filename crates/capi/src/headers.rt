// Headers and volume records, read and written.
ghost use Rattle.std.specs.Prelude.{◌≡◌, true, ◌||◌};
ghost use Rattle.header.specs.Fields.{written};
ghost use Rattle.header.specs.Ec.{ec_read, ec_written, ec_out};
ghost use Rattle.header.specs.Vid.{vid_read, vid_written, vid_out};
ghost use Rattle.volume_record.specs.Record.{judge_record, shown_record};
ghost use Rattle.report.specs.Attach.{over};
ghost use Rattle.capi_words.specs.Lent.{fits};
ghost use Rattle.capi_words.specs.Structs.{ec_words, vid_words, record_words, ec_most, vid_most, ec_in, vid_in};
ghost use Rattle.capi_answers.specs.Calls.{short, judged, changed, number_of, verdict_number, verdict_words};
ghost use Rattle.capi_answers.specs.Calls.{record_number, if_good};

use capi_answers::{NOT_GOOD, UNFIT, store_ec, store_record, store_vid};
use capi_words::{EC_WORDS, RECORD_WORDS, VID_WORDS};
use header::WriteError;
use report::refusal::SHORT_BUFFER;

const NAME_BYTES: usize = 128;

// The EC header at the start of a slice.
#[unsafe(no_mangle)]
pub extern "C" fn choduljin_read_ec(header: &[u8], ec: &mut [u64]) -> u32
    ensures answer { result ≡ judged (short 5 ec.old) true
        (verdict_number (ec_read header.now)) }
    ensures ec { ec.new ≡ changed (short 5 ec.old) true
        (over (verdict_words ec_words (ec_read header.now)) ec.old) ec.old }
{
    if ec.len() < EC_WORDS {
        return SHORT_BUFFER;
    }
    let r = ec_header::read_ec(header);
    store_ec(r, ec)
}

// The VID header at the start of a slice, judged by the LEB size.
#[unsafe(no_mangle)]
pub extern "C" fn choduljin_read_vid(header: &[u8], leb_size: u32, vid: &mut [u64]) -> u32
    ensures answer { result ≡ judged (short 11 vid.old) true
        (verdict_number (vid_read leb_size header.now)) }
    ensures vid { vid.new ≡ changed (short 11 vid.old) true
        (over (verdict_words vid_words (vid_read leb_size header.now)) vid.old)
        vid.old }
{
    if vid.len() < VID_WORDS {
        return SHORT_BUFFER;
    }
    let r = vid_header::read_vid(header, leb_size);
    store_vid(r, vid)
}

fn written_number(w: Result<(), WriteError>) -> u32
    ensures { result ≡ number_of (written w) }
{
    match w {
        Ok(()) => 0,
        Err(WriteError::Short) => SHORT_BUFFER,
        Err(WriteError::NotGood) => NOT_GOOD,
    }
}

// The EC header of the words is written to the first 64 bytes.
#[unsafe(no_mangle)]
pub extern "C" fn choduljin_write_ec(ec: &[u64], out: &mut [u8]) -> u32
    ensures answer { result ≡ judged (short 5 ec.now) (fits ec.now ec_most)
        (number_of (ec_written (ec_in ec.now) out.old)) }
    ensures out { out.new ≡ changed (short 5 ec.now) (fits ec.now ec_most)
        (ec_out (ec_in ec.now) out.old) out.old }
{
    if ec.len() < EC_WORDS {
        return SHORT_BUFFER;
    }
    if !capi_words::ec_fits(ec) {
        return UNFIT;
    }
    let h = capi_words::ec_in(ec);
    let w = ec_header::write_ec(h, out);
    written_number(w)
}

// The VID header of the words is written to the first 64 bytes.
#[unsafe(no_mangle)]
pub extern "C" fn choduljin_write_vid(vid: &[u64], leb_size: u32, out: &mut [u8]) -> u32
    ensures answer { result ≡ judged (short 11 vid.now) (fits vid.now vid_most)
        (number_of (vid_written leb_size (vid_in vid.now) out.old)) }
    ensures out { out.new ≡ changed (short 11 vid.now) (fits vid.now vid_most)
        (vid_out leb_size (vid_in vid.now) out.old) out.old }
{
    if vid.len() < VID_WORDS {
        return SHORT_BUFFER;
    }
    if !capi_words::vid_fits(vid) {
        return UNFIT;
    }
    let h = capi_words::vid_in(vid);
    let w = vid_header::write_vid(h, leb_size, out);
    written_number(w)
}

// The volume record at the start of a slice.
#[unsafe(no_mangle)]
pub extern "C" fn choduljin_read_record(
    record: &[u8],
    leb_size: u32,
    unit: u32,
    words: &mut [u64],
    name: &mut [u8],
) -> u32
    ensures answer { result ≡ judged (short 7 words.old || short 128 name.old) true
        (record_number (judge_record leb_size unit «record».now)) }
    ensures words { words.new
        ≡ changed (short 7 words.old || short 128 name.old) true
        (over
        (if_good (judge_record leb_size unit «record».now)
        (record_words (shown_record «record».now)))
        words.old)
        words.old }
    ensures name { name.new
        ≡ changed (short 7 words.old || short 128 name.old) true
        (over (if_good (judge_record leb_size unit «record».now) (shown_record «record».now).name)
        name.old)
        name.old }
{
    if words.len() < RECORD_WORDS || name.len() < NAME_BYTES {
        return SHORT_BUFFER;
    }
    let r = volume_record::read_record(record, leb_size, unit);
    store_record(r, words, name)
}
