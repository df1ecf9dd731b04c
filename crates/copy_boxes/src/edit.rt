// The edit list, whose entries are wider in version 1.
use crate::say;

const ELST: u32 = 0x656c7374;

fn elst_entry(rt: &impl Print, entries: &[u8], version: u8, i: u32) {
    if let Ok(x) = elst::entry(entries, version, i) {
        say::open(rt);
        say::numbers(rt, &[x.segment_duration]);
        say::signed(rt, x.media_time);
        say::signed16(rt, x.media_rate);
        say::signed16(rt, x.media_rate_fraction);
        say::close(rt);
    }
}

fn elst_entries(rt: &impl Print, entries: &[u8], version: u8, n: u32) {
    for i in 0..n {
        elst_entry(rt, entries, version, i);
    }
}

fn bytes_of(version: u8, n: u32) -> usize {
    if version == 1 {
        (n as usize) * 20
    } else {
        (n as usize) * 12
    }
}

fn elst(rt: &impl Print, part: &[u8], out: &mut [u8]) {
    match elst::read(part) {
        Err(q) => say::refused(rt, q),
        Ok((b, from)) => {
            say::numbers(rt, &[b.version as u64, b.flags as u64, b.count as u64]);
            let entries = say::entries(part, from, bytes_of(b.version, b.count));
            elst_entries(rt, entries, b.version, b.count);
            say::canonical(rt, part, elst::KIND, say::whole(elst::ROW), entries.len());
            let put = elst::write(b, entries, out);
            say::written(rt, put, part, out);
        }
    }
}

// Tells a box of one of these types, and answers whether it is one.
pub(crate) fn copy(rt: &impl Print, kind: u32, part: &[u8], out: &mut [u8]) -> bool {
    if kind == ELST {
        elst(rt, part, out);
        return true;
    }
    false
}
