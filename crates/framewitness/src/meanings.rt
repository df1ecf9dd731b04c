// A sentence for each number, for a reader who knows nothing of MP4. expected/audit.py has the same.
use crate::say;
use crate::source::Unread;

pub(crate) fn finding(rt: &impl Print, number: u32) -> bool {
    match number {
        1 => say::text(rt, b"the tables of a track do not count the same samples"),
        2 => say::text(rt, b"a sample has no bytes"),
        3 => say::text(rt, b"a sample lasts no time and another follows it"),
        4 => say::text(rt, b"a sample lies outside the media data"),
        5 => say::text(rt, b"a sample overlaps another one or lies before it"),
        6 => say::text(rt, b"a byte of the media data belongs to no sample"),
        7 => say::text(rt, b"a fragment's number does not follow the one before"),
        _ => say::text(rt, b"a fragment's time does not follow the one before"),
    }
}

pub(crate) fn refusal(rt: &impl Print, number: u32) -> bool {
    match number {
        1 => say::text(
            rt,
            b"the file ends too early, or a part of it is larger than the part that holds it",
        ),
        2 => say::text(
            rt,
            b"a part of the file is said to be smaller than its own heading",
        ),
        3 => say::text(rt, b"parts of the file lie more than 10 deep in each other"),
        4 => say::text(
            rt,
            b"the file has more bytes, tracks, samples, parts or fragments than are examined",
        ),
        5 => say::text(rt, b"a part that every such file needs is missing"),
        6 => say::text(rt, b"a part that may be there only once is there twice"),
        7 => say::text(rt, b"a part of the file has a version that is not known"),
        8 => say::text(rt, b"a value in the file is not allowed"),
        9 => say::text(rt, b"a place or a time that the file gives is out of range"),
        _ => say::text(
            rt,
            b"the file has fragments and also samples outside of them",
        ),
    }
}

pub(crate) fn unread(rt: &impl Print, why: Unread) -> bool {
    match why {
        Unread::Unopened => say::text(rt, b"it can not be opened"),
        Unread::Directory => say::text(rt, b"it is a directory"),
        Unread::NoFile => say::text(rt, b"it is a pipe or a device and no file"),
        Unread::TooLarge => say::text(rt, b"it is larger than this program's 4,194,304 bytes"),
        Unread::NotWhole => say::text(rt, b"its bytes could not all be read"),
    }
}
