// Boxes with a table: the entries are told one by one, as the reader of each gives them, and written as the bytes that
// they have in the box.
use crate::say;

const STTS: u32 = 0x73747473;

const CTTS: u32 = 0x63747473;

const STSC: u32 = 0x73747363;

const STSS: u32 = 0x73747373;

const STCO: u32 = 0x7374636f;

const CO64: u32 = 0x636f3634;

const STSZ: u32 = 0x7374737a;

fn stts_entry(rt: &impl Print, entries: &[u8], i: u32) {
    if let Ok(x) = stts::entry(entries, i) {
        say::open(rt);
        say::numbers(rt, &[x.sample_count as u64, x.sample_delta as u64]);
        say::close(rt);
    }
}

fn stts_entries(rt: &impl Print, entries: &[u8], n: u32) {
    for i in 0..n {
        stts_entry(rt, entries, i);
    }
}

fn stts(rt: &impl Print, part: &[u8], out: &mut [u8]) {
    match stts::read(part) {
        Err(q) => say::refused(rt, q),
        Ok((b, from)) => {
            say::numbers(rt, &[b.version as u64, b.flags as u64, b.count as u64]);
            let entries = say::entries(part, from, (b.count as usize) * 8);
            stts_entries(rt, entries, b.count);
            say::canonical(rt, part, stts::KIND, say::whole(stts::ROW), entries.len());
            let put = stts::write(b, entries, out);
            say::written(rt, put, part, out);
        }
    }
}

fn ctts_entry(rt: &impl Print, entries: &[u8], i: u32) {
    if let Ok(x) = ctts::entry(entries, i) {
        say::open(rt);
        say::numbers(rt, &[x.sample_count as u64]);
        say::signed32(rt, x.sample_offset);
        say::close(rt);
    }
}

fn ctts_entries(rt: &impl Print, entries: &[u8], n: u32) {
    for i in 0..n {
        ctts_entry(rt, entries, i);
    }
}

fn ctts(rt: &impl Print, part: &[u8], out: &mut [u8]) {
    match ctts::read(part) {
        Err(q) => say::refused(rt, q),
        Ok((b, from)) => {
            say::numbers(rt, &[b.version as u64, b.flags as u64, b.count as u64]);
            let entries = say::entries(part, from, (b.count as usize) * 8);
            ctts_entries(rt, entries, b.count);
            say::canonical(rt, part, ctts::KIND, say::whole(ctts::ROW), entries.len());
            let put = ctts::write(b, entries, out);
            say::written(rt, put, part, out);
        }
    }
}

fn stsc_entry(rt: &impl Print, entries: &[u8], i: u32) {
    if let Ok(x) = stsc::entry(entries, i) {
        say::open(rt);
        say::numbers(
            rt,
            &[
                x.first_chunk as u64,
                x.samples_per_chunk as u64,
                x.sample_description_index as u64,
            ],
        );
        say::close(rt);
    }
}

fn stsc_entries(rt: &impl Print, entries: &[u8], n: u32) {
    for i in 0..n {
        stsc_entry(rt, entries, i);
    }
}

fn stsc(rt: &impl Print, part: &[u8], out: &mut [u8]) {
    match stsc::read(part) {
        Err(q) => say::refused(rt, q),
        Ok((b, from)) => {
            say::numbers(rt, &[b.version as u64, b.flags as u64, b.count as u64]);
            let entries = say::entries(part, from, (b.count as usize) * 12);
            stsc_entries(rt, entries, b.count);
            say::canonical(rt, part, stsc::KIND, say::whole(stsc::ROW), entries.len());
            let put = stsc::write(b, entries, out);
            say::written(rt, put, part, out);
        }
    }
}

fn stss_entry(rt: &impl Print, entries: &[u8], i: u32) {
    if let Ok(x) = stss::entry(entries, i) {
        say::open(rt);
        say::numbers(rt, &[x as u64]);
        say::close(rt);
    }
}

fn stss_entries(rt: &impl Print, entries: &[u8], n: u32) {
    for i in 0..n {
        stss_entry(rt, entries, i);
    }
}

fn stss(rt: &impl Print, part: &[u8], out: &mut [u8]) {
    match stss::read(part) {
        Err(q) => say::refused(rt, q),
        Ok((b, from)) => {
            say::numbers(rt, &[b.version as u64, b.flags as u64, b.count as u64]);
            let entries = say::entries(part, from, (b.count as usize) * 4);
            stss_entries(rt, entries, b.count);
            say::canonical(rt, part, stss::KIND, say::whole(stss::ROW), entries.len());
            let put = stss::write(b, entries, out);
            say::written(rt, put, part, out);
        }
    }
}

fn stco_entry(rt: &impl Print, entries: &[u8], i: u32) {
    if let Ok(x) = stco::entry(entries, i) {
        say::open(rt);
        say::numbers(rt, &[x as u64]);
        say::close(rt);
    }
}

fn stco_entries(rt: &impl Print, entries: &[u8], n: u32) {
    for i in 0..n {
        stco_entry(rt, entries, i);
    }
}

fn stco(rt: &impl Print, part: &[u8], out: &mut [u8]) {
    match stco::read(part) {
        Err(q) => say::refused(rt, q),
        Ok((b, from)) => {
            say::numbers(rt, &[b.version as u64, b.flags as u64, b.count as u64]);
            let entries = say::entries(part, from, (b.count as usize) * 4);
            stco_entries(rt, entries, b.count);
            say::canonical(rt, part, stco::KIND, say::whole(stco::ROW), entries.len());
            let put = stco::write(b, entries, out);
            say::written(rt, put, part, out);
        }
    }
}

fn co64_entry(rt: &impl Print, entries: &[u8], i: u32) {
    if let Ok(x) = co64::entry(entries, i) {
        say::open(rt);
        say::numbers(rt, &[x]);
        say::close(rt);
    }
}

fn co64_entries(rt: &impl Print, entries: &[u8], n: u32) {
    for i in 0..n {
        co64_entry(rt, entries, i);
    }
}

fn co64(rt: &impl Print, part: &[u8], out: &mut [u8]) {
    match co64::read(part) {
        Err(q) => say::refused(rt, q),
        Ok((b, from)) => {
            say::numbers(rt, &[b.version as u64, b.flags as u64, b.count as u64]);
            let entries = say::entries(part, from, (b.count as usize) * 8);
            co64_entries(rt, entries, b.count);
            say::canonical(rt, part, co64::KIND, say::whole(co64::ROW), entries.len());
            let put = co64::write(b, entries, out);
            say::written(rt, put, part, out);
        }
    }
}

// With a common size nothing is listed.
fn listed(common: u32, count: u32) -> u32 {
    if common == 0 { count } else { 0 }
}

fn stsz_entry(rt: &impl Print, entries: &[u8], i: u32) {
    if let Ok(x) = stsz::entry(entries, i) {
        say::open(rt);
        say::numbers(rt, &[x as u64]);
        say::close(rt);
    }
}

fn stsz_entries(rt: &impl Print, entries: &[u8], n: u32) {
    for i in 0..n {
        stsz_entry(rt, entries, i);
    }
}

fn stsz(rt: &impl Print, part: &[u8], out: &mut [u8]) {
    match stsz::read(part) {
        Err(q) => say::refused(rt, q),
        Ok((b, from)) => {
            say::numbers(
                rt,
                &[
                    b.version as u64,
                    b.flags as u64,
                    b.sample_size as u64,
                    b.count as u64,
                ],
            );
            let n = listed(b.sample_size, b.count);
            let entries = say::entries(part, from, (n as usize) * 4);
            stsz_entries(rt, entries, n);
            say::canonical(rt, part, stsz::KIND, say::whole(stsz::ROW), entries.len());
            let put = stsz::write(b, entries, out);
            say::written(rt, put, part, out);
        }
    }
}

// Tells a box of one of these types, and answers whether it is one.
pub(crate) fn copy(rt: &impl Print, kind: u32, part: &[u8], out: &mut [u8]) -> bool {
    if kind == STTS {
        stts(rt, part, out);
        return true;
    }
    if kind == CTTS {
        ctts(rt, part, out);
        return true;
    }
    if kind == STSC {
        stsc(rt, part, out);
        return true;
    }
    if kind == STSS {
        stss(rt, part, out);
        return true;
    }
    if kind == STCO {
        stco(rt, part, out);
        return true;
    }
    if kind == CO64 {
        co64(rt, part, out);
        return true;
    }
    if kind == STSZ {
        stsz(rt, part, out);
        return true;
    }
    false
}
