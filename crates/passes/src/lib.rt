#![tactic(auto, unfolding(numbers::specs::Field::when, numbers::specs::Field::field))]
// The audit's pass over the samples of a track with tables: whether each of them fits, then F2 and F3, sample by sample.
// No sample is visited: sizes are read where stsz lists them, and entries of stts are passed over whole.
ghost use Rattle.std.specs.Prelude.{◌≡◌, take};
ghost use Rattle.tables.specs.Tables.{listed, values_of, pairs, size_at};
ghost use Rattle.tables.specs.Samples.{samples_of};
ghost use Rattle.passes.specs.Passed.{passed_of, of_sample, before_zero};

use tables::{Sizes, Table, Track};
use verdicts::Finding;

// What the pass over a track's samples tells. Over: one of them does not fit. Fine: F2 and F3 find nothing in
// so many.
#[derive(Clone, Copy)]
pub enum Passed {
    Over,
    Fine(usize),
    Found(Finding),
}

// A finding of that number about a sample of a track, which gives no position and no gap: F2 or F3.
pub fn finding(number: u32, track: u32, sample: u32) -> Finding
    ensures { result ≡ of_sample number track sample }
{
    Finding {
        number,
        track,
        sample,
        position: 0,
        gap: 0,
    }
}

// How many of the first n sizes come before the first 0: n where none is 0. A common size needs no visit.
fn before_empty(file: &[u8], t: Sizes, n: u32) -> u32
    ensures { result ≡ before_zero (listed (size_at file.now t) n) }
{
    if t.common != 0 {
        return n;
    }
    let mut i = 0;
    while i < n {
        let size = words::four(file, t.at, (i as usize) * 4);
        if size == 0 {
            return i;
        }
        i += 1;
    }
    n
}

// How many of the first n durations come before the first 0, by stts's entries: n where none is 0. An entry that counts
// no sample says nothing.
fn before_idle(file: &[u8], t: Table, n: u32) -> u32
    ensures { result ≡ before_zero (take n (values_of (pairs file.now t))) }
{
    let rows = tables::pairs(t);
    let mut i = 0;
    let mut left = n;
    while i < t.count {
        let e = tables::entry(file, rows, i);
        let many = e.count;
        let value = e.value;
        let idle = (0 < many) & (value == 0);
        if idle {
            return n - left;
        }
        if (left as u64) <= many {
            return n;
        }
        left -= many as u32;
        i += 1;
    }
    n - left
}

// The pass over the samples of a track, which has that number: the first finding, F2 before F3 at one sample. The last
// sample may last no time.
pub fn tables(file: &[u8], track: Track, number: u32) -> Passed
    ensures { result ≡ passed_of number (samples_of file.now track) }
{
    let Some(n) = lists::count(file, track) else {
        return Passed::Over;
    };
    if n == 0 {
        return Passed::Fine(0);
    }
    let sizes = track.stsz;
    let stts = track.stts;
    let last = (n - 1) as u32;
    let sized = before_empty(file, sizes, n as u32);
    let lasting = before_idle(file, stts, last);
    if sized <= lasting {
        return Passed::Found(finding(2, number, sized + 1));
    }
    if lasting < last {
        return Passed::Found(finding(3, number, lasting + 1));
    }
    Passed::Fine(n)
}
