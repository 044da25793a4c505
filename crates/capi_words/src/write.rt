// The words of each struct.
ghost use Rattle.std.specs.Prelude.{◌≡◌};
ghost use Rattle.base.specs.Answers.{given};
ghost use Rattle.capi_words.specs.Structs.{geometry_words, ec_words, vid_words, record_words, report_words, plan_words};
ghost use Rattle.capi_words.specs.Structs.{answer_words};

use geometry::Geometry;
use header::{EcHeader, VidHeader};
use mover_rules::Plan;
use report::Report;
use volume_record::VolumeRecord;

pub fn geometry_words(g: Geometry) -> [u64; 6]
    ensures { result ≡ geometry_words g }
{
    [
        g.peb_size as u64,
        g.unit as u64,
        g.sub_unit as u64,
        g.vid_start as u64,
        g.data_start as u64,
        g.leb_size as u64,
    ]
}

// A report, after the number and the place of no refusal.
#[tactic(auto, unfolding(crate::specs::Structs::report_words))]
pub fn report_words(r: Report) -> [u64; 17]
    ensures { result ≡ answer_words report_words (given r) }
{
    let g = r.geometry;
    [
        0,
        0,
        g.peb_size as u64,
        g.unit as u64,
        g.sub_unit as u64,
        g.vid_start as u64,
        g.data_start as u64,
        g.leb_size as u64,
        r.peb_count as u64,
        r.entries as u64,
        r.mean as u64,
        r.highest,
        r.image_seq as u64,
        u64::from(r.read_only),
        r.table as u64,
        r.copies_mark as u64,
        r.grade as u64,
    ]
}

pub fn ec_words(h: EcHeader) -> [u64; 5]
    ensures { result ≡ ec_words h }
{
    [
        h.version as u64,
        h.counter,
        h.vid_start as u64,
        h.data_start as u64,
        h.image_seq as u64,
    ]
}

pub fn vid_words(h: VidHeader) -> [u64; 11]
    ensures { result ≡ vid_words h }
{
    [
        h.version as u64,
        h.vol_type as u64,
        h.copy_flag as u64,
        h.compat as u64,
        h.volume as u64,
        h.lnum as u64,
        h.data_size as u64,
        h.used_lebs as u64,
        h.data_pad as u64,
        h.data_crc as u64,
        h.sequence,
    ]
}

// A plan, after the number and the place of no refusal.
#[tactic(auto, unfolding(crate::specs::Structs::plan_words))]
pub fn plan_words(p: Plan) -> [u64; 24]
    ensures { result ≡ answer_words plan_words (given p) }
{
    let v = p.vid;
    let e = p.ec;
    [
        0,
        0,
        p.peb_size as u64,
        p.unit as u64,
        p.sub_unit as u64,
        p.old as u64,
        p.target as u64,
        v.version as u64,
        v.vol_type as u64,
        v.copy_flag as u64,
        v.compat as u64,
        v.volume as u64,
        v.lnum as u64,
        v.data_size as u64,
        v.used_lebs as u64,
        v.data_pad as u64,
        v.data_crc as u64,
        v.sequence,
        e.version as u64,
        e.counter,
        e.vid_start as u64,
        e.data_start as u64,
        e.image_seq as u64,
        p.steps as u64,
    ]
}

// The numbers of a volume record; its name stands beside them.
pub fn record_words(v: VolumeRecord) -> [u64; 7]
    ensures { result ≡ record_words v }
{
    [
        v.reserved as u64,
        v.alignment as u64,
        v.data_pad as u64,
        v.vol_type as u64,
        v.update_marker as u64,
        v.name_length as u64,
        v.flags as u64,
    ]
}
