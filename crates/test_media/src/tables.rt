// Judges a volume record or two copies of a volume table, or writes a record, as the first byte says, and prints the
// answer.
use volume_record::{RecordKind, RecordRead, VolumeRecord};

pub fn answer(payload: &[u8]) {
    match frames::number_at(payload, 0, 1) {
        1 => judge_record(payload),
        3 => write_record(payload),
        _ => judge_tables(payload),
    }
}

fn judge_record(payload: &[u8]) {
    let leb_size = frames::u32_at(payload, 1);
    let unit = frames::u32_at(payload, 5);
    print_record(volume_record::read_record(frames::rest(payload, 9), leb_size, unit));
}

fn judge_tables(payload: &[u8]) {
    let leb_size = frames::u32_at(payload, 1);
    let unit = frames::u32_at(payload, 5);
    let peb_count = frames::u32_at(payload, 9);
    let split = frames::number_at(payload, 13, 4) as usize;
    if let Some((copy0, copy1)) = frames::rest(payload, 17).split_at_checked(split) {
        print_tables(copy0, copy1, leb_size, unit, peb_count);
    }
}

// The record at byte 1: its numbers in the order of their bytes, then its name.
fn record_at(payload: &[u8], name: [u8; 128]) -> VolumeRecord {
    VolumeRecord {
        reserved: frames::u32_at(payload, 1),
        alignment: frames::u32_at(payload, 5),
        data_pad: frames::u32_at(payload, 9),
        vol_type: frames::u8_at(payload, 13),
        update_marker: frames::u8_at(payload, 14),
        name_length: (frames::number_at(payload, 15, 2) % 0x10000) as u16,
        flags: frames::u8_at(payload, 17),
        name,
    }
}

fn write_record(payload: &[u8]) {
    let Some((name, from)) = frames::rest(payload, 18).split_first_chunk::<128>() else {
        return;
    };
    let n = from.len();
    if 256 < n {
        return;
    }
    let mut out = [0u8; 256];
    out[..n].copy_from_slice(from);
    record_into(record_at(payload, *name), &mut out[..n]);
}

fn record_into(v: VolumeRecord, out: &mut [u8]) {
    match record_write::write_record(v, out) {
        Ok(()) => frames::word(b"written"),
        Err(_) => frames::word(b"refused 4"),
    }
    if !out.is_empty() {
        frames::word(b" ");
        frames::hex(out);
    }
}

fn print_record(r: RecordRead) {
    match r.kind {
        RecordKind::Good => print_fields(r.record),
        RecordKind::Empty => frames::word(b"empty"),
        RecordKind::Bad => frames::word(b"bad"),
        RecordKind::Short => frames::word(b"refused 4"),
    }
}

fn print_fields(v: VolumeRecord) {
    frames::word(b"good");
    frames::next_number(v.reserved as u64);
    frames::next_number(v.alignment as u64);
    frames::next_number(v.data_pad as u64);
    frames::next_number(v.vol_type as u64);
    frames::next_number(v.update_marker as u64);
    frames::next_number(v.name_length as u64);
    frames::next_number(v.flags as u64);
    frames::word(b" ");
    frames::hex(&v.name);
}

fn print_leb(leb: u32) {
    frames::word(b"taken");
    frames::next_number(leb as u64);
}

fn print_tables(copy0: &[u8], copy1: &[u8], leb_size: u32, unit: u32, peb_count: u32) {
    let choice = table_choice::choose_table(copy0, copy1, leb_size, unit, peb_count);
    match choice.taken {
        Some(leb) => print_leb(leb),
        None => frames::word(b"taken 2"),
    }
    frames::word(b" mark");
    frames::next_number(choice.copies_mark as u64);
    let records = table_choice::taken_table(copy0, copy1, choice.taken, leb_size);
    frames::word(b" records");
    frames::next_number(records.len() as u64);
    frames::next_number(crc32::crc32(records) as u64);
}
