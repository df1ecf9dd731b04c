// Boxes that end with bytes of any kind.
use crate::say;

const HDLR: u32 = 0x68646c72;

const URL: u32 = 0x75726c20;

const DREF: u32 = 0x64726566;

const STSD: u32 = 0x73747364;

fn hdlr(rt: &impl Print, part: &[u8], out: &mut [u8]) {
    match hdlr::read(part) {
        Err(q) => say::refused(rt, q),
        Ok(b) => {
            say::numbers(
                rt,
                &[b.version as u64, b.flags as u64, b.handler_type as u64],
            );
            let name = hdlr::name(part);
            say::bytes(rt, name);
            say::canonical(rt, part, hdlr::KIND, say::whole(hdlr::ROW), name.len());
            let put = hdlr::write(b, name, out);
            say::written(rt, put, part, out);
        }
    }
}

fn url(rt: &impl Print, part: &[u8], out: &mut [u8]) {
    match url_box::read(part) {
        Err(q) => say::refused(rt, q),
        Ok(b) => {
            say::numbers(rt, &[b.version as u64, b.flags as u64]);
            let location = url_box::location(part);
            say::bytes(rt, location);
            say::canonical(
                rt,
                part,
                url_box::KIND,
                say::whole(url_box::ROW),
                location.len(),
            );
            let put = url_box::write(b, location, out);
            say::written(rt, put, part, out);
        }
    }
}

fn dref(rt: &impl Print, part: &[u8], out: &mut [u8]) {
    match dref::read(part) {
        Err(q) => say::refused(rt, q),
        Ok(b) => {
            say::numbers(rt, &[b.version as u64, b.flags as u64, b.count as u64]);
            let entries = dref::entries(part);
            say::bytes(rt, entries);
            say::canonical(rt, part, dref::KIND, say::whole(dref::ROW), entries.len());
            let put = dref::write(b, entries, out);
            say::written(rt, put, part, out);
        }
    }
}

fn stsd(rt: &impl Print, part: &[u8], out: &mut [u8]) {
    match stsd::read(part) {
        Err(q) => say::refused(rt, q),
        Ok(b) => {
            say::numbers(rt, &[b.version as u64, b.flags as u64, b.count as u64]);
            let entries = stsd::entries(part);
            say::bytes(rt, entries);
            say::canonical(rt, part, stsd::KIND, say::whole(stsd::ROW), entries.len());
            let put = stsd::write(b, entries, out);
            say::written(rt, put, part, out);
        }
    }
}

// Tells a box of one of these types, and whether it was one.
pub(crate) fn copy(rt: &impl Print, kind: u32, part: &[u8], out: &mut [u8]) -> bool {
    if kind == HDLR {
        hdlr(rt, part, out);
        return true;
    }
    if kind == URL {
        url(rt, part, out);
        return true;
    }
    if kind == DREF {
        dref(rt, part, out);
        return true;
    }
    if kind == STSD {
        stsd(rt, part, out);
        return true;
    }
    false
}
