// A file's line: its name, and then what there is to say of it. Each function tells whether all of it was written.
use crate::source::Unread;
use crate::{meanings, say};
use numbers::Refusal;
use verdicts::Finding;

pub(crate) fn name(rt: &impl Print, s: &[u8]) -> bool {
    say::text(rt, s) & say::text(rt, b": ")
}

pub(crate) fn clean(rt: &impl Print, tracks: u32, samples: u64, media: u64) -> bool {
    say::field(rt, b"clean tracks=", tracks as u64)
        & say::field(rt, b" samples=", samples)
        & say::field(rt, b" media=", media)
        & say::text(rt, b"\n")
}

pub(crate) fn finding(rt: &impl Print, f: Finding) -> bool {
    say::field(rt, b"F", f.number as u64)
        & say::field(rt, b" track=", f.track as u64)
        & say::field(rt, b" sample=", f.sample as u64)
        & say::field(rt, b" position=", f.position)
        & say::text(rt, b" gap=")
        & say::signed(rt, f.gap)
        & say::text(rt, b" (")
        & meanings::finding(rt, f.number)
        & say::text(rt, b")\n")
}

// What is missing has a name, what is wrong a position.
fn detail(rt: &impl Print, q: Refusal) -> bool {
    match q {
        Refusal::Missing(kind) => say::letters(rt, kind),
        _ => say::number(rt, q.detail() as u64),
    }
}

pub(crate) fn refusal(rt: &impl Print, q: Refusal) -> bool {
    say::field(rt, b"refused ", u64::from(q.code()))
        & say::text(rt, b" detail=")
        & detail(rt, q)
        & say::text(rt, b" (")
        & meanings::refusal(rt, q.code())
        & say::text(rt, b")\n")
}

pub(crate) fn unread(rt: &impl Print, why: Unread) -> bool {
    say::text(rt, b"not read (") & meanings::unread(rt, why) & say::text(rt, b")\n")
}

// Of a name that no path can have, as much as was read.
pub(crate) fn too_long(rt: &impl Print, start: &[u8]) -> bool {
    say::text(rt, start) & say::text(rt, b"...: not read (its name is too long)\n")
}
