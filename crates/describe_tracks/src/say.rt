// The words of a line: the name of a getter first, then each behind a tab.
use numbers::Refusal;

pub(crate) fn text(rt: &impl Print, s: &[u8]) {
    let _ = rt.write_all(s);
}

pub(crate) fn number(rt: &impl Print, n: u64) {
    text(rt, b"\t");
    let _ = rt.print(n);
}

pub(crate) fn end(rt: &impl Print) {
    text(rt, b"\n");
}

// A line of one number.
pub(crate) fn count(rt: &impl Print, name: &[u8], n: u64) {
    text(rt, name);
    number(rt, n);
    end(rt);
}

// A line of one word.
pub(crate) fn word(rt: &impl Print, name: &[u8], told: &[u8]) {
    text(rt, name);
    text(rt, b"\t");
    text(rt, told);
    end(rt);
}

// The end of a line that tells a refusal.
pub(crate) fn refusal(rt: &impl Print, q: Refusal) {
    text(rt, b"\trefused");
    number(rt, u64::from(q.code()));
    number(rt, q.detail() as u64);
    end(rt);
}

pub(crate) fn refused(rt: &impl Print, name: &[u8], q: Refusal) {
    text(rt, name);
    refusal(rt, q);
}

pub(crate) fn one(rt: &impl Print, name: &[u8], answer: Result<u8, Refusal>) {
    match answer {
        Ok(n) => count(rt, name, n as u64),
        Err(q) => refused(rt, name, q),
    }
}

pub(crate) fn four(rt: &impl Print, name: &[u8], answer: Result<u32, Refusal>) {
    match answer {
        Ok(n) => count(rt, name, n as u64),
        Err(q) => refused(rt, name, q),
    }
}

pub(crate) fn eight(rt: &impl Print, name: &[u8], answer: Result<u64, Refusal>) {
    match answer {
        Ok(n) => count(rt, name, n),
        Err(q) => refused(rt, name, q),
    }
}

fn digits_of(rt: &impl Print, b: u8) {
    let _ = print!(rt; "{b:02x}");
}

// Two digits for each byte.
fn digits(rt: &impl Print, s: &[u8]) {
    for b in s {
        digits_of(rt, *b);
    }
}

// Bytes of any kind: an x, so that none are a word too, and their digits.
pub(crate) fn bytes(rt: &impl Print, s: &[u8]) {
    text(rt, b"\tx");
    digits(rt, s);
}
