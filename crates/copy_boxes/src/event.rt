// The event message: its numbers, its two strings and its message.
use crate::say;

const EMSG: u32 = 0x656d7367;

// How many bytes of a box lie behind its version and flags.
fn behind(end: usize) -> usize {
    if end < 12 {
        return 0;
    }
    end - 12
}

fn emsg(rt: &impl Print, part: &[u8], out: &mut [u8]) {
    match emsg::read(part) {
        Err(q) => say::refused(rt, q),
        Ok((b, p)) => {
            say::numbers(
                rt,
                &[
                    b.version as u64,
                    b.flags as u64,
                    b.timescale as u64,
                    b.presentation_time,
                ],
            );
            say::two(rt, b.event_duration, b.id);
            let scheme = emsg_parts::scheme(part);
            let value = emsg_parts::value(part);
            let message = emsg_parts::message(part);
            say::bytes(rt, scheme);
            say::bytes(rt, value);
            say::bytes(rt, message);
            say::canonical(rt, part, emsg::KIND, say::whole(emsg::ROW), behind(p.end));
            let put = emsg_write::write(b, scheme, value, message, out);
            say::written(rt, put, part, out);
        }
    }
}

// Tells a box of this type, and answers whether it is one.
pub(crate) fn copy(rt: &impl Print, kind: u32, part: &[u8], out: &mut [u8]) -> bool {
    if kind == EMSG {
        emsg(rt, part, out);
        return true;
    }
    false
}
