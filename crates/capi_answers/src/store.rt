// Answers stored as words at the start of those that are lent, and as one number.
ghost use Rattle.std.specs.Prelude.{◌≡◌, [], ◌∷◌, ℕ, ◌≤◌, length};
ghost use Rattle.base.specs.Answers.{given};
ghost use Rattle.geometry.specs.Geometry.{geometry_read};
ghost use Rattle.header.specs.Ec.{ec_answer};
ghost use Rattle.header.specs.Vid.{vid_answer};
ghost use Rattle.volume_record.specs.Record.{record_kind};
ghost use Rattle.report.specs.Attach.{over, attached_answer};
ghost use Rattle.listing_text.specs.Render.{rendered_answer};
ghost use Rattle.mover_rules.specs.Begin.{begun_answer};
ghost use Rattle.mover_rules.specs.Step.{stepped_answer};
ghost use Rattle.capi_words.specs.Structs.{geometry_words, ec_words, vid_words, record_words, report_words, plan_words};
ghost use Rattle.capi_words.specs.Structs.{answer_words};
ghost use Rattle.capi_answers.specs.Calls.{number_of, verdict_number, record_number, progress_number, next_number};
ghost use Rattle.capi_answers.specs.Calls.{given_words, verdict_words, if_good, progress_words, next_words};

use crate::{BAD, EMPTY, MAY_NOT_RUN, ON};
use capi_words::store_words;
use geometry::{Geometry, SlipError};
use header::{EcHeader, ReadError, VidHeader};
use listing_text::TooShort;
use mover_next::NextWrite;
use mover_rules::{Plan, Stepped};
use report::refusal::{BAD_GEOMETRY, MALFORMED_SLIP, NEWER_HEADER, SHORT_BUFFER};
use report::{Refused, Report};
use volume_record::{RecordKind, RecordRead};

// The kinds of a write.
const NOTHING: u64 = 0;

const BYTES_STORED: u64 = 1;

const BLOCK_ERASED: u64 = 2;

fn store_refusal(r: Refused, lent: &mut [u64]) -> u32
    requires { 2 ≤ length lent.old }
    ensures answer { result ≡ r.number }
    ensures words { lent.new ≡ over (r.number ∷ r.place ∷ []) lent.old }
{
    store_words(lent, &[r.number as u64, r.place as u64]);
    r.number
}

// What attaching answered: a report or a refusal.
pub fn store_attached(a: Result<Report, Refused>, lent: &mut [u64]) -> u32
    requires { 17 ≤ length lent.old }
    ensures answer { result ≡ number_of (attached_answer a) }
    ensures words { lent.new ≡ over (answer_words report_words (attached_answer a)) lent.old }
{
    match a {
        Ok(r) => {
            store_words(lent, &capi_words::report_words(r));
            0
        }
        Err(e) => store_refusal(e, lent),
    }
}

// What rendering a listing answered: the length of its text.
pub fn store_rendered(r: Result<usize, TooShort>, lent: &mut [u64]) -> u32
    requires { 1 ≤ length lent.old }
    ensures answer { result ≡ number_of (rendered_answer r) }
    ensures words { lent.new
        ≡ over (given_words (λ (n : ℕ). n ∷ []) (rendered_answer r)) lent.old }
{
    match r {
        Ok(n) => {
            store_words(lent, &[n as u64]);
            0
        }
        Err(_) => SHORT_BUFFER,
    }
}

pub fn store_geometry(r: Result<Geometry, SlipError>, lent: &mut [u64]) -> u32
    requires { 6 ≤ length lent.old }
    ensures answer { result ≡ number_of (geometry_read r) }
    ensures words { lent.new ≡ over (given_words geometry_words (geometry_read r)) lent.old }
{
    match r {
        Ok(g) => {
            store_words(lent, &capi_words::geometry_words(g));
            0
        }
        Err(SlipError::Malformed) => MALFORMED_SLIP,
        Err(SlipError::Outside) => BAD_GEOMETRY,
    }
}

// What the beginning of a move answered: a plan or a refusal.
pub fn store_begun(b: Result<Plan, Refused>, lent: &mut [u64]) -> u32
    requires { 24 ≤ length lent.old }
    ensures answer { result ≡ number_of (begun_answer b) }
    ensures words { lent.new ≡ over (answer_words plan_words (begun_answer b)) lent.old }
{
    match b {
        Ok(p) => store_plan(p, lent),
        Err(e) => store_refusal(e, lent),
    }
}

// A plan as it stands.
pub fn store_plan(p: Plan, lent: &mut [u64]) -> u32
    requires { 24 ≤ length lent.old }
    ensures answer { result ≡ 0 }
    ensures words { lent.new ≡ over (answer_words plan_words (given p)) lent.old }
{
    store_words(lent, &capi_words::plan_words(p));
    0
}

// What a step answered: the plan as it goes on, if it does.
pub fn store_stepped(s: Stepped, lent: &mut [u64]) -> u32
    requires { 24 ≤ length lent.old }
    ensures answer { result ≡ progress_number (stepped_answer s) }
    ensures words { lent.new ≡ over (progress_words (stepped_answer s)) lent.old }
{
    match s {
        Stepped::On(next) => {
            store_words(lent, &capi_words::plan_words(next));
            ON
        }
        Stepped::Done => 0,
        Stepped::Refused => MAY_NOT_RUN,
    }
}

fn store_write(kind: u64, at: usize, count: usize, lent: &mut [u64]) -> u32
    requires { 3 ≤ length lent.old }
    ensures answer { result ≡ 0 }
    ensures words { lent.new ≡ over (kind ∷ at ∷ count ∷ []) lent.old }
{
    store_words(lent, &[kind, at as u64, count as u64]);
    0
}

pub fn store_next(w: NextWrite, lent: &mut [u64]) -> u32
    requires { 3 ≤ length lent.old }
    ensures answer { result ≡ next_number w }
    ensures words { lent.new ≡ over (next_words w) lent.old }
{
    match w {
        NextWrite::Store { at, length } => store_write(BYTES_STORED, at, length, lent),
        NextWrite::Erase { at, length } => store_write(BLOCK_ERASED, at, length, lent),
        NextWrite::Nothing => store_write(NOTHING, 0, 0, lent),
        NextWrite::Refused => MAY_NOT_RUN,
    }
}

// The answer about a header that is not read.
fn no_header(e: ReadError) -> u32
    ensures ec { result ≡ verdict_number (ec_answer (Err e)) }
    ensures vid { result ≡ verdict_number (vid_answer (Err e)) }
{
    match e {
        ReadError::Bad => BAD,
        ReadError::Newer => NEWER_HEADER,
        ReadError::Short => SHORT_BUFFER,
    }
}

pub fn store_ec(r: Result<EcHeader, ReadError>, lent: &mut [u64]) -> u32
    requires { 5 ≤ length lent.old }
    ensures answer { result ≡ verdict_number (ec_answer r) }
    ensures words { lent.new ≡ over (verdict_words ec_words (ec_answer r)) lent.old }
{
    match r {
        Ok(h) => {
            store_words(lent, &capi_words::ec_words(h));
            0
        }
        Err(lost) => no_header(lost),
    }
}

pub fn store_vid(r: Result<VidHeader, ReadError>, lent: &mut [u64]) -> u32
    requires { 11 ≤ length lent.old }
    ensures answer { result ≡ verdict_number (vid_answer r) }
    ensures words { lent.new ≡ over (verdict_words vid_words (vid_answer r)) lent.old }
{
    match r {
        Ok(h) => {
            store_words(lent, &capi_words::vid_words(h));
            0
        }
        Err(bad) => no_header(bad),
    }
}

// What a record is; of a good one its numbers, and beside them its name.
pub fn store_record(r: RecordRead, lent: &mut [u64], name: &mut [u8]) -> u32
    requires { (7 ≤ length lent.old) × (128 ≤ length name.old) }
    ensures answer { result ≡ record_number (record_kind r.kind) }
    ensures words { lent.new
        ≡ over (if_good (record_kind r.kind) (record_words r.«record»)) lent.old }
    ensures name { name.new
        ≡ over (if_good (record_kind r.kind) r.«record».name) name.old }
{
    match r.kind {
        RecordKind::Good => {
            let v = r.record;
            store_words(lent, &capi_words::record_words(v));
            let bytes: &[u8] = &v.name;
            name[..bytes.len()].copy_from_slice(bytes);
            0
        }
        RecordKind::Empty => EMPTY,
        RecordKind::Bad => BAD,
        RecordKind::Short => SHORT_BUFFER,
    }
}
