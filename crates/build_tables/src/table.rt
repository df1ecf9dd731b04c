// A line for each table: its entries are built from the records, and put into its box by the box's own writer.
use crate::say;
use co64::Co64;
use ctts::Ctts;
use stco::Stco;
use stsc::Stsc;
use stss::Stss;
use stsz::Stsz;
use stts::Stts;

const NARROW: usize = 0x1_0000_0000;

// How many entries lie in so many bytes.
fn count(length: usize, each: usize) -> u32 {
    if each == 0 {
        return 0;
    }
    (length / each % NARROW) as u32
}

pub(crate) fn stts(rt: &impl Print, records: &[u64], n: u32, entries: &mut [u8], out: &mut [u8]) {
    match builder::stts::entries(records, n as usize, entries) {
        Err(q) => say::refused(rt, b"stts", q),
        Ok(length) => {
            let stts = Stts {
                version: 0,
                flags: 0,
                count: count(length, 8),
            };
            let put = stts::write(stts, say::part(entries, 0, length), out);
            say::written(rt, b"stts", put, out);
        }
    }
}

// Absent where it has no entry (A57).
pub(crate) fn ctts(rt: &impl Print, records: &[u64], n: u32, entries: &mut [u8], out: &mut [u8]) {
    match builder::ctts::entries(records, n as usize, entries) {
        Err(q) => say::refused(rt, b"ctts", q),
        Ok(length) => {
            if length == 0 {
                say::absent(rt, b"ctts");
                return;
            }
            let ctts = Ctts {
                version: 0,
                flags: 0,
                count: count(length, 8),
            };
            let put = ctts::write(ctts, say::part(entries, 0, length), out);
            say::written(rt, b"ctts", put, out);
        }
    }
}

pub(crate) fn stsc(
    rt: &impl Print,
    records: &[u64],
    n: u32,
    timescale: u32,
    entries: &mut [u8],
    out: &mut [u8],
) {
    match chunking_stsc::entries(records, n as usize, timescale, entries) {
        Err(q) => say::refused(rt, b"stsc", q),
        Ok(length) => {
            let stsc = Stsc {
                version: 0,
                flags: 0,
                count: count(length, 12),
            };
            let put = stsc::write(stsc, say::part(entries, 0, length), out);
            say::written(rt, b"stsc", put, out);
        }
    }
}

pub(crate) fn stsz(rt: &impl Print, records: &[u64], n: u32, entries: &mut [u8], out: &mut [u8]) {
    match builder_stsz::entries(records, n as usize, entries) {
        Err(q) => say::refused(rt, b"stsz", q),
        Ok(length) => {
            let stsz = Stsz {
                version: 0,
                flags: 0,
                sample_size: builder_stsz::common(records, n as usize),
                count: n,
            };
            let put = stsz::write(stsz, say::part(entries, 0, length), out);
            say::written(rt, b"stsz", put, out);
        }
    }
}

fn stco(rt: &impl Print, entries: &[u8], out: &mut [u8]) {
    let stco = Stco {
        version: 0,
        flags: 0,
        count: count(entries.len(), 4),
    };
    let put = stco::write(stco, entries, out);
    say::written(rt, b"stco", put, out);
}

fn co64(rt: &impl Print, entries: &[u8], out: &mut [u8]) {
    let co64 = Co64 {
        version: 0,
        flags: 0,
        count: count(entries.len(), 8),
    };
    let put = co64::write(co64, entries, out);
    say::written(rt, b"co64", put, out);
}

// A refusal is told of stco: it comes before the two are told apart.
pub(crate) fn offsets(
    rt: &impl Print,
    records: &[u64],
    n: u32,
    timescale: u32,
    entries: &mut [u8],
    out: &mut [u8],
) {
    match chunking_offsets::entries(records, n as usize, timescale, entries) {
        Err(q) => say::refused(rt, b"stco", q),
        Ok(length) => {
            if chunking_offsets::wide(records, n as usize, timescale) {
                co64(rt, say::part(entries, 0, length), out);
            } else {
                stco(rt, say::part(entries, 0, length), out);
            }
        }
    }
}

// Absent where there is no sample (A56).
pub(crate) fn stss(rt: &impl Print, records: &[u64], n: u32, entries: &mut [u8], out: &mut [u8]) {
    if n == 0 {
        say::absent(rt, b"stss");
        return;
    }
    match builder_stss::entries(records, n as usize, entries) {
        Err(q) => say::refused(rt, b"stss", q),
        Ok(length) => {
            let stss = Stss {
                version: 0,
                flags: 0,
                count: count(length, 4),
            };
            let put = stss::write(stss, say::part(entries, 0, length), out);
            say::written(rt, b"stss", put, out);
        }
    }
}

// An stsd of no entry.
const STSD: [u8; 16] = [0, 0, 0, 16, 0x73, 0x74, 0x73, 0x64, 0, 0, 0, 0, 0, 0, 0, 0];

pub(crate) fn stbl(rt: &impl Print, records: &[u64], n: u32, timescale: u32, out: &mut [u8]) {
    let stsd = STSD;
    let put = sampletable::write(records, n as usize, timescale, &stsd, out);
    say::written(rt, b"stbl", put, out);
}
