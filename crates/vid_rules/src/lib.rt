// The rules of a VID header's fields, beside magic, CRC and version.
#![tactic(auto)]

ghost use Rattle.std.specs.Prelude.{◌≡◌, ◌||◌, ◌≤◌, eqb};
ghost use Rattle.base.specs.Answers.{all_of};
ghost use Rattle.header.specs.Vid.{volume_rule, static_rule, dynamic_rule, layout_rule, vid_rules};

use header::{
    COMPAT_DELETE, COMPAT_NONE, COMPAT_PRESERVE, COMPAT_READ_ONLY, COMPAT_REJECT, DYNAMIC,
    LAYOUT_VOLUME, STATIC, VidHeader,
};

// Is the volume dynamic or static?
fn is_type(t: u8) -> bool
    ensures { result ≡ (eqb t 1 || eqb t 2) }
{
    t == DYNAMIC || t == STATIC
}

// Is the compatibility one of an internal volume?
fn is_internal(compat: u8) -> bool
    ensures { result ≡ (eqb compat 1 || (eqb compat 2 || (eqb compat 4 || eqb compat 5))) }
{
    matches!(
        compat,
        COMPAT_DELETE | COMPAT_READ_ONLY | COMPAT_PRESERVE | COMPAT_REJECT
    )
}

// Does the compatibility go with the volume?
#[tactic(auto, unfolding(header::specs::Vid::volume_rule))]
fn volume_rule(h: VidHeader) -> bool
    ensures { result ≡ volume_rule h }
{
    match h.volume {
        0..=127 => h.compat == COMPAT_NONE,
        LAYOUT_VOLUME..=0x7FFFFFFF => is_internal(h.compat),
        _ => false,
    }
}

// The rule of a static volume's block.
#[tactic(auto, unfolding(header::specs::Vid::static_rule))]
fn static_rule(h: VidHeader, leb_size: u32) -> bool
    requires { h.data_pad ≤ leb_size }
    ensures { result ≡ static_rule leb_size h }
{
    if h.vol_type != STATIC {
        return true;
    }
    h.lnum < h.used_lebs
        && 0 < h.data_size
        && (h.lnum + 1 == h.used_lebs || h.data_size == leb_size - h.data_pad)
}

// The rule of a dynamic volume's block.
#[tactic(auto, unfolding(header::specs::Vid::dynamic_rule))]
fn dynamic_rule(h: VidHeader) -> bool
    ensures { result ≡ dynamic_rule h }
{
    if h.vol_type != DYNAMIC {
        return true;
    }
    if h.used_lebs != 0 {
        return false;
    }
    match h.copy_flag {
        0 => h.data_size == 0 && h.data_crc == 0,
        1 => 0 < h.data_size,
        _ => true,
    }
}

// The rule of a layout block.
#[tactic(auto, unfolding(header::specs::Vid::layout_rule))]
fn layout_rule(h: VidHeader) -> bool
    ensures { result ≡ layout_rule h }
{
    if h.volume != LAYOUT_VOLUME {
        return true;
    }
    h.vol_type == DYNAMIC && h.compat == COMPAT_REJECT && h.data_pad == 0 && h.lnum <= 1
}

// Do all rules hold?
#[tactic(auto, unfolding(header::specs::Vid::vid_rules))]
pub fn rules_hold(h: VidHeader, leb_size: u32) -> bool
    ensures { result ≡ all_of (vid_rules leb_size h) }
{
    h.copy_flag <= 1
        && is_type(h.vol_type)
        && volume_rule(h)
        && h.lnum <= 0x7FFFFFFF
        && h.used_lebs <= 0x7FFFFFFF
        && 2 * u64::from(h.data_pad) < u64::from(leb_size)
        && h.data_size <= leb_size - h.data_pad
        && static_rule(h, leb_size)
        && dynamic_rule(h)
        && layout_rule(h)
}
