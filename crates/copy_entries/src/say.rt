// The words of a line: each begins with a space.
use numbers::Refusal;

pub(crate) fn text(rt: &impl Print, s: &[u8]) {
    let _ = rt.write_all(s);
}

fn number(rt: &impl Print, n: u64) {
    text(rt, b" ");
    let _ = rt.print(n);
}

pub(crate) fn numbers(rt: &impl Print, row: &[u64]) {
    for n in row {
        number(rt, *n);
    }
}

pub(crate) fn one(rt: &impl Print, a: u32) {
    number(rt, a as u64);
}

pub(crate) fn two(rt: &impl Print, a: u32, b: u32) {
    numbers(rt, &[a as u64, b as u64]);
}

// An entry of a table stands in brackets.
pub(crate) fn open(rt: &impl Print) {
    text(rt, b" [");
}

pub(crate) fn close(rt: &impl Print) {
    text(rt, b" ]");
}

fn digits_of(rt: &impl Print, b: u8) {
    let _ = print!(rt; "{b:02x}");
}

// Two digits for each byte.
fn digits(rt: &impl Print, s: &[u8]) {
    for b in s {
        digits_of(rt, *b);
    }
}

// Bytes of any kind: an x, so that none are a word too, and their digits.
pub(crate) fn bytes(rt: &impl Print, s: &[u8]) {
    text(rt, b" x");
    digits(rt, s);
}

// Four numbers of eight bytes, as bytes.
pub(crate) fn eights(rt: &impl Print, a: u64, b: u64, c: u64, d: u64) {
    text(rt, b" x");
    let _ = print!(rt; "{a:016x}");
    let _ = print!(rt; "{b:016x}");
    let _ = print!(rt; "{c:016x}");
    let _ = print!(rt; "{d:016x}");
}

pub(crate) fn refused(rt: &impl Print, q: Refusal) {
    text(rt, b" refused");
    number(rt, u64::from(q.code()));
    number(rt, q.detail() as u64);
}

fn begins_with(s: &[u8], t: &[u8]) -> bool {
    if s.len() < t.len() {
        return false;
    }
    for i in 0..t.len() {
        if s[i] != t[i] {
            return false;
        }
    }
    true
}

// The written box holds its own size, so where the part begins with it, it is the whole box that was read.
fn compared(rt: &impl Print, part: &[u8], written: &[u8]) {
    if begins_with(part, written) {
        text(rt, b" same");
    } else {
        text(rt, b" wrote ");
        digits(rt, written);
    }
}

// What the writer made of a box that was read from `part`.
pub(crate) fn written(rt: &impl Print, put: Result<usize, Refusal>, part: &[u8], out: &[u8]) {
    match put {
        Err(q) => {
            text(rt, b" unwritten");
            number(rt, u64::from(q.code()));
            number(rt, q.detail() as u64);
        }
        Ok(n) => compared(rt, part, bytes_at(out, 0, n)),
    }
}

// The n bytes of `part` from `from` on; none where they are not all there.
pub(crate) fn bytes_at(part: &[u8], from: usize, n: usize) -> &[u8] {
    if part.len() < from {
        return &part[..0];
    }
    if part.len() - from < n {
        return &part[..0];
    }
    let end = from + n;
    &part[from..end]
}

// What was made alone, of no box that was read.
pub(crate) fn made(rt: &impl Print, put: Result<usize, Refusal>, out: &[u8]) {
    match put {
        Err(q) => refused(rt, q),
        Ok(n) => bytes(rt, bytes_at(out, 0, n)),
    }
}
