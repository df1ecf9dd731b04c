// The words of a line, and parts of what is lent.
use numbers::Refusal;

pub(crate) fn text(rt: &impl Print, s: &[u8]) {
    let _ = rt.write_all(s);
}

fn number(rt: &impl Print, n: u64) {
    text(rt, b"\t");
    let _ = rt.print(n);
}

fn digits_of(rt: &impl Print, b: u8) {
    let _ = print!(rt; "{b:02x}");
}

// Two digits for each byte.
fn digits(rt: &impl Print, s: &[u8]) {
    for b in s {
        digits_of(rt, *b);
    }
}

// The n bytes from `at` on; none where they are not all there.
pub(crate) fn part(s: &[u8], at: usize, n: usize) -> &[u8] {
    if s.len() < at {
        return &s[..0];
    }
    if s.len() - at < n {
        return &s[..0];
    }
    let end = at + n;
    &s[at..end]
}

pub(crate) fn absent(rt: &impl Print, name: &[u8]) {
    text(rt, name);
    text(rt, b"\tabsent\n");
}

pub(crate) fn refused(rt: &impl Print, name: &[u8], q: Refusal) {
    text(rt, name);
    text(rt, b"\trefused");
    number(rt, u64::from(q.code()));
    number(rt, q.detail() as u64);
    text(rt, b"\n");
}

// The box that a writer put at the start of `out`.
pub(crate) fn written(rt: &impl Print, name: &[u8], put: Result<usize, Refusal>, out: &[u8]) {
    match put {
        Err(q) => refused(rt, name, q),
        Ok(n) => {
            text(rt, name);
            text(rt, b"\t");
            digits(rt, part(out, 0, n));
            text(rt, b"\n");
        }
    }
}
