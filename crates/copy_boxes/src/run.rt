// The run of a fragment, whose samples have the values that its flags say.
ghost use Rattle.std.specs.Prelude.{◌≤◌};

use crate::say;
use trun::Trun;

const TRUN: u32 = 0x7472756e;

fn trun_offset(rt: &impl Print, b: Trun) {
    match trun::offset_of(b) {
        None => say::signed(rt, 0),
        Some(n) => say::signed(rt, n),
    }
}

fn trun_entry(rt: &impl Print, b: Trun, entries: &[u8], i: u32) {
    if let Ok(x) = trun::entry(b, entries, i) {
        say::open(rt);
        say::three(rt, x.duration, x.size, x.flags);
        say::signed(rt, x.composition_offset);
        say::close(rt);
    }
}

fn trun_entries(rt: &impl Print, b: Trun, entries: &[u8], n: u32) {
    for i in 0..n {
        trun_entry(rt, b, entries, i);
    }
}

// Samples that say nothing of themselves are not told.
fn listed(flags: u32, n: u32) -> u32 {
    if flags / 0x100 % 16 == 0 { 0 } else { n }
}

// The bytes of one value of each of n samples.
fn column(there: bool, n: u32) -> usize
    ensures { result ≤ 17179869180 }
{
    if there { (n as usize) * 4 } else { 0 }
}

fn bytes_of(flags: u32, n: u32) -> usize {
    let durations = column(flags / 0x100 % 2 == 1, n);
    let sizes = column(flags / 0x200 % 2 == 1, n);
    let own = column(flags / 0x400 % 2 == 1, n);
    let offsets = column(flags / 0x800 % 2 == 1, n);
    durations + sizes + own + offsets
}

fn trun(rt: &impl Print, part: &[u8], out: &mut [u8]) {
    match trun::read(part) {
        Err(q) => say::refused(rt, q),
        Ok((b, from)) => {
            say::numbers(
                rt,
                &[b.version as u64, b.flags as u64, b.sample_count as u64],
            );
            trun_offset(rt, b);
            say::one(rt, b.first_sample_flags);
            let entries = say::entries(part, from, bytes_of(b.flags, b.sample_count));
            trun_entries(rt, b, entries, listed(b.flags, b.sample_count));
            say::canonical(rt, part, trun::KIND, say::whole(trun::ROW), entries.len());
            let put = trun::write(b, entries, out);
            say::written(rt, put, part, out);
        }
    }
}

// Tells a box of this type, and answers whether it is one.
pub(crate) fn copy(rt: &impl Print, kind: u32, part: &[u8], out: &mut [u8]) -> bool {
    if kind == TRUN {
        trun(rt, part, out);
        return true;
    }
    false
}
