// The words of a line: each begins with a space.
use layout::Field;
use numbers::Refusal;

pub(crate) fn text(rt: &impl Print, s: &[u8]) {
    let _ = rt.write_all(s);
}

fn number(rt: &impl Print, n: u64) {
    text(rt, b" ");
    let _ = rt.print(n);
}

pub(crate) fn numbers(rt: &impl Print, row: &[u64]) {
    for n in row {
        number(rt, *n);
    }
}

pub(crate) fn one(rt: &impl Print, a: u32) {
    number(rt, a as u64);
}

pub(crate) fn two(rt: &impl Print, a: u32, b: u32) {
    numbers(rt, &[a as u64, b as u64]);
}

pub(crate) fn three(rt: &impl Print, a: u32, b: u32, c: u32) {
    numbers(rt, &[a as u64, b as u64, c as u64]);
}

// An entry of a table stands in brackets.
pub(crate) fn open(rt: &impl Print) {
    text(rt, b" [");
}

pub(crate) fn close(rt: &impl Print) {
    text(rt, b" ]");
}

pub(crate) fn signed(rt: &impl Print, n: i64) {
    if n < 0 {
        text(rt, b" -");
        let _ = rt.print(absolute::of(n));
    } else {
        number(rt, absolute::of(n));
    }
}

pub(crate) fn signed16(rt: &impl Print, n: i16) {
    signed(rt, n as i64);
}

pub(crate) fn signed32(rt: &impl Print, n: i32) {
    signed(rt, n as i64);
}

fn digits_of(rt: &impl Print, b: u8) {
    let _ = print!(rt; "{b:02x}");
}

// Two digits for each byte.
fn digits(rt: &impl Print, s: &[u8]) {
    for b in s {
        digits_of(rt, *b);
    }
}

// Bytes of any kind: an x, so that none are a word too, and their digits.
pub(crate) fn bytes(rt: &impl Print, s: &[u8]) {
    text(rt, b" x");
    digits(rt, s);
}

pub(crate) fn refused(rt: &impl Print, q: Refusal) {
    text(rt, b" refused");
    number(rt, u64::from(q.code()));
    number(rt, q.detail() as u64);
}

fn begins_with(s: &[u8], t: &[u8]) -> bool {
    if s.len() < t.len() {
        return false;
    }
    for i in 0..t.len() {
        if s[i] != t[i] {
            return false;
        }
    }
    true
}

// The written box holds its own size, so where the part begins with it, it is the whole box that was read.
fn compared(rt: &impl Print, part: &[u8], written: &[u8]) {
    if begins_with(part, written) {
        text(rt, b" same");
    } else {
        text(rt, b" wrote ");
        digits(rt, written);
    }
}

// The bytes of a box alone, without those behind it; none where its size is not in its first four bytes.
fn alone(part: &[u8]) -> &[u8] {
    match numbers::read::<u32>(part, 0) {
        Ok(size) => entries(part, 0, size as usize),
        Err(_) => &part[..0],
    }
}

// A row of eight fields, as the whole row.
pub(crate) fn whole(row: [Field; 8]) -> [Field; 24] {
    [
        row[0],
        row[1],
        row[2],
        row[3],
        row[4],
        row[5],
        row[6],
        row[7],
        Field::Nothing,
        Field::Nothing,
        Field::Nothing,
        Field::Nothing,
        Field::Nothing,
        Field::Nothing,
        Field::Nothing,
        Field::Nothing,
        Field::Nothing,
        Field::Nothing,
        Field::Nothing,
        Field::Nothing,
        Field::Nothing,
        Field::Nothing,
        Field::Nothing,
        Field::Nothing,
    ]
}

// Whether a box that was read is as we write it, with so many bytes behind its fields.
pub(crate) fn canonical(rt: &impl Print, part: &[u8], kind: u32, row: [Field; 24], rest: usize) {
    if canonical::by(alone(part), kind, row, rest as u64) {
        text(rt, b" canonical");
    } else {
        text(rt, b" other");
    }
}

// What the writer made of a box that was read from `part`.
pub(crate) fn written(rt: &impl Print, put: Result<usize, Refusal>, part: &[u8], out: &[u8]) {
    match put {
        Err(q) => {
            text(rt, b" unwritten");
            number(rt, u64::from(q.code()));
            number(rt, q.detail() as u64);
        }
        Ok(n) => compared(rt, part, entries(out, 0, n)),
    }
}

// The n bytes of `part` from `from` on, where the entries of a table lie; none where they are not all there.
pub(crate) fn entries(part: &[u8], from: usize, n: usize) -> &[u8] {
    if part.len() < from {
        return &part[..0];
    }
    if part.len() - from < n {
        return &part[..0];
    }
    let end = from + n;
    &part[from..end]
}
