// Reads or writes a header, as the first byte says, and prints the answer and the lent buffer.
use header::{EcHeader, ReadError, VidHeader, WriteError};

pub fn answer(payload: &[u8]) {
    match frames::number_at(payload, 0, 1) {
        1 => print_ec(ec_header::read_ec(frames::rest(payload, 1))),
        2 => print_vid(vid_header::read_vid(frames::rest(payload, 5), frames::u32_at(payload, 1))),
        3 => write_ec(payload),
        _ => write_vid(payload),
    }
}

fn print_ec(r: Result<EcHeader, ReadError>) {
    match r {
        Ok(h) => print_good_ec(h),
        Err(ReadError::Bad) => frames::word(b"lost"),
        Err(ReadError::Newer) => frames::word(b"newer"),
        Err(ReadError::Short) => frames::word(b"refused 4"),
    }
}

fn print_good_ec(h: EcHeader) {
    frames::word(b"good");
    frames::print_ec(h);
}

fn print_vid(r: Result<VidHeader, ReadError>) {
    match r {
        Ok(h) => print_good_vid(h),
        Err(ReadError::Bad) => frames::word(b"bad"),
        Err(ReadError::Newer) => frames::word(b"newer"),
        Err(ReadError::Short) => frames::word(b"refused 4"),
    }
}

fn print_good_vid(h: VidHeader) {
    frames::word(b"good");
    frames::print_vid(h);
}

fn print_written(r: Result<(), WriteError>, out: &[u8]) {
    match r {
        Ok(()) => frames::word(b"written"),
        Err(WriteError::Short) => frames::word(b"refused 4"),
        Err(WriteError::NotGood) => frames::word(b"refused 19"),
    }
    if !out.is_empty() {
        frames::word(b" ");
        frames::hex(out);
    }
}

fn ec_into(h: EcHeader, out: &mut [u8]) {
    let r = ec_header::write_ec(h, out);
    print_written(r, out);
}

fn vid_into(h: VidHeader, leb_size: u32, out: &mut [u8]) {
    let r = vid_header::write_vid(h, leb_size, out);
    print_written(r, out);
}

fn write_ec(payload: &[u8]) {
    let h = frames::ec_at(payload, 1);
    let from = frames::rest(payload, 22);
    let n = from.len();
    if 128 < n {
        return;
    }
    let mut out = [0u8; 128];
    out[..n].copy_from_slice(from);
    ec_into(h, &mut out[..n]);
}

fn write_vid(payload: &[u8]) {
    let h = frames::vid_at(payload, 5);
    let from = frames::rest(payload, 41);
    let n = from.len();
    if 128 < n {
        return;
    }
    let mut out = [0u8; 128];
    out[..n].copy_from_slice(from);
    vid_into(h, frames::u32_at(payload, 1), &mut out[..n]);
}
