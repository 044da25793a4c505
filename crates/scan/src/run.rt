// The pass over an image's PEBs.
ghost use Rattle.report.specs.View.{Views, view_of, medium_of};
ghost use Rattle.scan.specs.Pass.{TotalsOf, PebReady, PebPassed, ImageReady, Passed};

use crate::totals::{check_ec, check_vid, with_ec, with_vid};
use crate::{EcTotals, ScanTotals, VidTotals};
use geometry::Geometry;
use peb_scan::{first_class, first_counter, is_idle, see_ec, see_vid, store_key};
use report::Refused;
use words::store_peb;

// PEB i, with the bytes p: its refusal's number, or the totals with it and its words.
fn pass_peb(
    s: ScanTotals,
    p: &[u8],
    g: Geometry,
    i: usize,
    pebs: &mut [u32],
    map: &mut [u32],
) -> Result<ScanTotals, u32>
    requires { PebReady g p.now i s pebs.old map.old }
    ensures { PebPassed g i (view_of g p.now) s result
        pebs.old pebs.new map.old map.new }
{
    let e = see_ec(p, g);
    let ec = with_ec(s.ec, e);
    check_ec(e, g, ec)?;
    let v = see_vid(p, g);
    check_vid(v)?;
    let class = first_class(e, v);
    store_peb(pebs, i, class, first_counter(e));
    store_key(map, i, v);
    let vid = with_vid(s.vid, is_idle(class), v);
    Ok(ScanTotals { ec, vid })
}

// The totals of no PEB.
fn no_totals() -> ScanTotals
    ensures { (vs : Views) → TotalsOf 0 vs result }
{
    let ec = EcTotals {
        image_seq: 0,
        counters: 0,
        good: 0,
    };
    let vid = VidTotals {
        highest: 0,
        read_only: false,
        unused: true,
    };
    ScanTotals { ec, vid }
}

// All n PEBs of an image, one after the other, up to the first that refuses it.
pub fn pass(
    image: &[u8],
    g: Geometry,
    n: usize,
    pebs: &mut [u32],
    map: &mut [u32],
) -> Result<ScanTotals, Refused>
    requires { ImageReady g n image.now pebs.old map.old }
    ensures { Passed (medium_of g n image.now) result
        pebs.old pebs.new map.old map.new }
{
    let size = g.peb_size as usize;
    let mut s = no_totals();
    for i in 0..n {
        let at = i * size;
        s = pass_peb(s, &image[at..at + size], g, i, pebs, map).map_err(|number| Refused {
            number,
            place: i as u32,
        })?;
    }
    Ok(s)
}
