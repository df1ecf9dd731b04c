// Boxes whose whole content is boxes: where the first of each type that is read begins, 0 where there is none. The
// children's bytes are written as they are, and stand in a pack as boxes of their own.
use crate::say;
use layout::Field;

const EDTS: u32 = 0x65647473;

const DINF: u32 = 0x64696e66;

const MVEX: u32 = 0x6d766578;

const MOOF: u32 = 0x6d6f6f66;

const TRAF: u32 = 0x74726166;

fn place(rt: &impl Print, p: Option<usize>) {
    match p {
        None => say::numbers(rt, &[0]),
        Some(n) => say::numbers(rt, &[n as u64]),
    }
}

fn edts(rt: &impl Print, part: &[u8], out: &mut [u8]) {
    match containers::edts::read(part) {
        Err(q) => say::refused(rt, q),
        Ok(b) => {
            let elst = b.elst;
            place(rt, elst);
            let content = wrap::content(part, EDTS);
            say::canonical(rt, part, EDTS, [Field::Nothing; 24], content.len());
            let put = wrap::around(content, EDTS, out);
            say::written(rt, put, part, out);
        }
    }
}

fn dinf(rt: &impl Print, part: &[u8], out: &mut [u8]) {
    match containers::dinf::read(part) {
        Err(q) => say::refused(rt, q),
        Ok(b) => {
            let dref = b.dref;
            place(rt, dref);
            let content = wrap::content(part, DINF);
            say::canonical(rt, part, DINF, [Field::Nothing; 24], content.len());
            let put = wrap::around(content, DINF, out);
            say::written(rt, put, part, out);
        }
    }
}

fn mvex(rt: &impl Print, part: &[u8], out: &mut [u8]) {
    match containers::mvex::read(part) {
        Err(q) => say::refused(rt, q),
        Ok(b) => {
            let trex = b.trex;
            place(rt, trex);
            let content = wrap::content(part, MVEX);
            say::canonical(rt, part, MVEX, [Field::Nothing; 24], content.len());
            let put = wrap::around(content, MVEX, out);
            say::written(rt, put, part, out);
        }
    }
}

fn moof(rt: &impl Print, part: &[u8], out: &mut [u8]) {
    match moof::read(part) {
        Err(q) => say::refused(rt, q),
        Ok(b) => {
            let mfhd = b.mfhd;
            place(rt, mfhd);
            let traf = b.traf;
            place(rt, traf);
            let content = wrap::content(part, MOOF);
            say::canonical(rt, part, MOOF, [Field::Nothing; 24], content.len());
            let put = wrap::around(content, MOOF, out);
            say::written(rt, put, part, out);
        }
    }
}

fn traf(rt: &impl Print, part: &[u8], out: &mut [u8]) {
    match traf::read(part) {
        Err(q) => say::refused(rt, q),
        Ok(b) => {
            let tfhd = b.tfhd;
            place(rt, tfhd);
            let tfdt = b.tfdt;
            place(rt, tfdt);
            let trun = b.trun;
            place(rt, trun);
            let content = wrap::content(part, TRAF);
            say::canonical(rt, part, TRAF, [Field::Nothing; 24], content.len());
            let put = wrap::around(content, TRAF, out);
            say::written(rt, put, part, out);
        }
    }
}

// Tells a box of one of these types, and answers whether it is one.
pub(crate) fn copy(rt: &impl Print, kind: u32, part: &[u8], out: &mut [u8]) -> bool {
    if kind == EDTS {
        edts(rt, part, out);
        return true;
    }
    if kind == DINF {
        dinf(rt, part, out);
        return true;
    }
    if kind == MVEX {
        mvex(rt, part, out);
        return true;
    }
    if kind == MOOF {
        moof(rt, part, out);
        return true;
    }
    if kind == TRAF {
        traf(rt, part, out);
        return true;
    }
    false
}
