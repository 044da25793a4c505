// Operations on the lent tables, or on what they say.
use lookup::PebReport;
use mover_rules::Plan;

// An operation on the tables; any other leaves them and the plan.
pub fn of_tables(
    slip: &[u8],
    s: &[u8],
    plan: Plan,
    image: &[u8],
    pebs: &mut [u32],
    map: &mut [u32],
    states: &mut [u32],
) -> Plan {
    match frames::number_at(s, 0, 1) {
        1 => return begin(slip, s, plan, image, pebs, map, states),
        6 => attach(slip, image, pebs, map, states),
        7 => look_up(s, image, pebs, map),
        _ => {}
    }
    plan
}

// A refused beginning leaves the plan of an earlier one.
fn begin(
    slip: &[u8],
    s: &[u8],
    plan: Plan,
    image: &[u8],
    pebs: &mut [u32],
    map: &mut [u32],
    states: &mut [u32],
) -> Plan {
    let volume = frames::u32_at(s, 1);
    let lnum = frames::u32_at(s, 5);
    let target = frames::u32_at(s, 9);
    let r = mover_begin::begin(slip, image, pebs, map, states, volume, lnum, target);
    show::begun(r);
    show::image(image);
    show::tables(pebs, map, states);
    r.unwrap_or(plan)
}

fn attach(slip: &[u8], image: &[u8], pebs: &mut [u32], map: &mut [u32], states: &mut [u32]) {
    show::answer(attach::attach(slip, image, pebs, map, states));
    show::tables(pebs, map, states);
    show::image(image);
}

// What tables of so many PEBs and entries say of a PEB and of a LEB.
fn look_up(s: &[u8], image: &[u8], pebs: &[u32], map: &[u32]) {
    match lookup::peb_report(pebs, frames::u32_at(s, 1), frames::u32_at(s, 5)) {
        Some(PebReport { class, counter }) => peb(class, counter),
        None => frames::word(b"peb absent"),
    }
    match lookup::find_leb(
        map,
        frames::u32_at(s, 9),
        frames::u32_at(s, 13),
        frames::u32_at(s, 17),
    ) {
        Some(p) => leb(p),
        None => frames::word(b" leb absent "),
    }
    show::image(image);
}

fn peb(class: u32, counter: u32) {
    frames::word(b"peb");
    frames::next_number(class as u64);
    frames::next_number(counter as u64);
}

fn leb(peb: u32) {
    frames::word(b" leb");
    frames::next_number(peb as u64);
    frames::word(b" ");
}
