// The words of a line. Each function tells whether all of them were written.

// To standard output.
pub(crate) fn text(rt: &impl Print, s: &[u8]) -> bool {
    rt.write_all(s).is_ok()
}

// To standard error.
pub(crate) fn error(rt: &impl Eprint, s: &str) -> bool {
    rt.eprint(s).is_ok()
}

pub(crate) fn number(rt: &impl Print, n: u64) -> bool {
    rt.print(n).is_ok()
}

// A number behind the word for it.
pub(crate) fn field(rt: &impl Print, word: &[u8], n: u64) -> bool {
    text(rt, word) & number(rt, n)
}

pub(crate) fn signed(rt: &impl Print, n: i64) -> bool {
    if n < 0 {
        text(rt, b"-") & number(rt, absolute::of(n))
    } else {
        number(rt, absolute::of(n))
    }
}

// A byte that is no printable ASCII is printed as '?'.
fn letter(b: u8) -> u8 {
    if (b < 0x20) | (0x7e < b) { b'?' } else { b }
}

// The four letters of a box's type.
pub(crate) fn letters(rt: &impl Print, kind: u32) -> bool {
    let mut four = types::letters::of_number(kind);
    four[0] = letter(four[0]);
    four[1] = letter(four[1]);
    four[2] = letter(four[2]);
    four[3] = letter(four[3]);
    text(rt, &four)
}
