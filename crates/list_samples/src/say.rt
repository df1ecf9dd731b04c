// The words of a line.
use numbers::Refusal;

pub(crate) fn text(rt: &impl Print, s: &[u8]) {
    let _ = rt.write_all(s);
}

pub(crate) fn number(rt: &impl Print, n: u64) {
    let _ = rt.print(n);
}

pub(crate) fn next_number(rt: &impl Print, n: u64) {
    text(rt, b"\t");
    number(rt, n);
}

pub(crate) fn next_signed(rt: &impl Print, n: i64) {
    if n < 0 {
        text(rt, b"\t-");
        number(rt, absolute::of(n));
    } else {
        next_number(rt, absolute::of(n));
    }
}

pub(crate) fn refused(rt: &impl Print, q: Refusal) {
    text(rt, b"refused");
    next_number(rt, u64::from(q.code()));
    next_number(rt, q.detail() as u64);
}
