// Where the boxes of a trak lie: how many bytes each has.
use crate::say;
use places::kinds;

fn length(rt: &impl Print, name: &[u8], part: &[u8]) {
    say::count(rt, name, part.len() as u64);
}

// Which box is missing on the way to mdhd, and to stsz.
fn missing(rt: &impl Print, trak: &[u8]) {
    say::count(
        rt,
        b"missing_in_mdia",
        trak::missing_in_mdia(trak, kinds::MDHD) as u64,
    );
    say::count(
        rt,
        b"missing_in_stbl",
        trak::missing_in_stbl(trak, kinds::STSZ) as u64,
    );
}

pub(crate) fn tell(rt: &impl Print, trak: &[u8]) {
    length(rt, b"tkhd", trak::tkhd(trak));
    length(rt, b"mdhd", trak::mdhd(trak));
    length(rt, b"hdlr", trak::hdlr(trak));
    length(rt, b"stbl", trak::stbl(trak));
    length(rt, b"stsz", trak::stsz(trak));
    length(rt, b"stsd", trak::stsd(trak));
    length(rt, b"entry", trak::entry(trak));
    missing(rt, trak);
    say::four(rt, b"entry_kind", trak_boxes::entry_kind(trak));
}
