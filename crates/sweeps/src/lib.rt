#![tactic(auto, unfolding(numbers::specs::Field::when, numbers::specs::Field::field))]
// The sweep of an audit (F4, F5, F6) over up to four tracks, each a lane over its tables or over its runs: the position
// goes through the payloads of the file's mdats, and each byte that it comes to must be the first of one sample.
ghost use Rattle.std.specs.Prelude.{◌≡◌, true, false, ◌+◌, ◌≤◌, ◌<◌, min, take};
ghost use Rattle.kin.specs.Kin.{boxes};
ghost use Rattle.runtable.specs.Table.{rows_of};
ghost use Rattle.verdicts.specs.Findings.{track, asked};
ghost use Rattle.verdicts.specs.Sweep.{sweep as sweepOf};
ghost use Rattle.payloads.specs.Payloads.{payloads_from};
ghost use Rattle.lanes.specs.Site as tabled;
ghost use Rattle.fragments.specs.Lane as fragmented;
ghost use Rattle.sweeps.specs.Tracks.{fitting, tracks_in};
ghost use Rattle.sweeps.specs.Heads.{claimed, stray_of, left_in, see_at, look_at, nothing, nearer_at, until_in, Passed, TurnIs, ahead};

use lanes::site;
use lanes::site::{Site, Stood};
use payloads::Payload;
use verdicts::Finding;

// The next sample of a track, where it has one: then live.
#[derive(Clone, Copy)]
pub(crate) struct Head {
    pub live: bool,
    pub track: u32,
    pub number: u32,
    pub offset: u64,
    pub size: u32,
}

// Which tracks' next samples matter at a position: the first that starts below it, the first and the second that start
// at it. 4 is none.
#[derive(Clone, Copy)]
pub(crate) struct Seen {
    pub below: usize,
    pub first: usize,
    pub second: usize,
}

// Track t's next sample, at o, beside those that were seen.
#[tactic(auto, unfolding(numbers::specs::Field::when, numbers::specs::Field::field, crate::specs::Heads::see_at))]
fn see(l: Seen, t: usize, p: u64, o: u64) -> Seen
    ensures { result ≡ see_at l t p o }
{
    if o < p {
        if l.below == 4 {
            return Seen {
                below: t,
                first: l.first,
                second: l.second,
            };
        }
        return l;
    }
    if o == p {
        if l.first == 4 {
            return Seen {
                below: l.below,
                first: t,
                second: l.second,
            };
        }
        if l.second == 4 {
            return Seen {
                below: l.below,
                first: l.first,
                second: t,
            };
        }
        return l;
    }
    l
}

// What is seen at p.
fn look(p: u64, heads: [Head; 4]) -> Seen
    ensures { result ≡ look_at nothing 0 p heads }
{
    let mut l = Seen {
        below: 4,
        first: 4,
        second: 4,
    };
    let mut t: usize = 0;
    while t < 4 {
        let h = heads[t];
        if h.live {
            l = see(l, t, p, h.offset);
        }
        t += 1;
    }
    l
}

// The bound b, or the start of track i's next sample where that is nearer; t's own is no bound.
#[tactic(auto, unfolding(numbers::specs::Field::when, numbers::specs::Field::field, crate::specs::Heads::nearer_at))]
fn nearer(b: u64, i: usize, t: usize, h: Head) -> u64
    ensures { result ≡ nearer_at b i t h }
{
    if h.live {
        if i == t {
            return b;
        }
        let o = h.offset;
        if o < b {
            return o;
        }
        return b;
    }
    b
}

// Up to where only track t can have a sample: the least start of the others' next samples, and at most the payload's
// end.
fn until(heads: [Head; 4], t: usize, end: u64) -> u64
    ensures { result ≡ until_in end 0 t heads }
{
    let mut b = end;
    let mut other: usize = 0;
    while other < 4 {
        let h = heads[other];
        b = nearer(b, other, t, h);
        other += 1;
    }
    b
}

// A finding that names a track's next sample, and where it starts.
fn claim(number: u32, h: Head) -> Finding
    ensures { result ≡ claimed number h }
{
    Finding {
        number,
        track: h.track,
        sample: h.number,
        position: h.offset,
        gap: 0,
    }
}

// What comes next. Skip: the payload is at its end. Take: that track's next sample is taken, up to `to`, and its lane is
// asked for the one after it, with which so many tracks are filled. Stray: a next sample starts where it must not.
#[derive(Clone, Copy)]
pub(crate) enum Turn {
    Skip,
    Take {
        track: usize,
        to: u64,
        until: u64,
        filled: usize,
    },
    Stray(Head),
    Stop(Finding),
}

// At p in a payload up to `end`, with the first `filled` of `count` tracks filled. Where one is not filled yet that comes
// first, and no sample is taken: so the lanes are asked for their first samples at the place that asks for all others.
fn decide(heads: [Head; 4], filled: usize, count: usize, p: u64, end: u64) -> Turn
    requires { p ≤ end }
    ensures { TurnIs heads filled count p end result }
{
    if filled < count {
        return Turn::Take {
            track: filled,
            to: p,
            until: 0,
            filled: filled + 1,
        };
    }
    if p == end {
        return Turn::Skip;
    }
    let seen = look(p, heads);
    let below = seen.below;
    if below < 4 {
        let astray = heads[below];
        return Turn::Stray(astray);
    }
    let first = seen.first;
    if 4 <= first {
        return Turn::Stop(Finding {
            number: 6,
            track: 0,
            sample: 0,
            position: p,
            gap: 0,
        });
    }
    let second = seen.second;
    if second < 4 {
        let other = heads[second];
        return Turn::Stop(claim(5, other));
    }
    let h = heads[first];
    let size = h.size as u64;
    if size <= end - p {
        return Turn::Take {
            track: first,
            to: p + size,
            until: until(heads, first, end),
            filled,
        };
    }
    Turn::Stop(claim(4, h))
}

// A sample that starts below the position, or is left after the last payload: F5 if its start lies in a payload, else
// F4.
fn stray(
    file: &[u8],
    n: usize,
    starts: &[usize; 4096],
    sizes: &[usize; 4096],
    kinds: &[usize; 4096],
    parents: &[usize; 4096],
    placed: &[usize; 4096],
    h: Head,
) -> Option<Finding>
    ensures { result ≡ asked (stray_of (payloads_from file.now (boxes starts.now sizes.now kinds.now parents.now placed.now) n 0) h) }
{
    if payloads::holds(file, n, h.offset, starts, sizes, kinds, parents, placed) {
        return Some(claim(5, h));
    }
    Some(claim(4, h))
}

// After the last payload: the first track with a sample left.
fn left_over(
    file: &[u8],
    n: usize,
    starts: &[usize; 4096],
    sizes: &[usize; 4096],
    kinds: &[usize; 4096],
    parents: &[usize; 4096],
    placed: &[usize; 4096],
    heads: [Head; 4],
) -> Option<Finding>
    ensures { result ≡ asked (left_in (payloads_from file.now (boxes starts.now sizes.now kinds.now parents.now placed.now) n 0) heads) }
{
    let mut i: usize = 0;
    while i < 4 {
        let h = heads[i];
        if h.live {
            return stray(file, n, starts, sizes, kinds, parents, placed, h);
        }
        i += 1;
    }
    None
}

// The head of a track that has no sample left.
fn dead(track: u32) -> Head
    ensures { result ≡ ahead false track 0 0 0 }
{
    Head {
        live: false,
        track,
        number: 0,
        offset: 0,
        size: 0,
    }
}

// Whether a sample can be taken at p with no look at the other tracks.
fn goes_on(offset: u64, size: u64, p: u64, until: u64, end: u64) -> bool
    requires { p ≤ end }
    ensures { result ≡ true → (offset ≡ p) × (p < until) × (p + size ≤ end) }
{
    if offset == p {
        if p < until {
            return size <= end - p;
        }
        return false;
    }
    false
}

// A lane's next sample.
fn met(track: u32, number: u32, offset: u64, size: u32) -> Head
    ensures { result ≡ ahead true track number offset size }
{
    Head {
        live: true,
        track,
        number,
        offset,
        size,
    }
}

// How far a track's samples were taken, its next sample, and its lane after that, by its tables.
#[derive(Clone, Copy)]
struct Tabled {
    pub at: u64,
    pub head: Head,
    pub lane: Site,
}

// From p on, as long as the lane's samples follow one another and no other track can have one: below `until`. A sample
// that does not fit ends its track: it is refused before any sweep.
fn by_tables(
    file: &[u8],
    number: u32,
    t: tables::Track,
    lane: Site,
    p: u64,
    until: u64,
    end: u64,
) -> Tabled
    requires { (p ≤ end) × (until ≤ end) }
    ensures { Passed until end p (track number true (fitting (tabled.left file.now t lane))) result.at result.head (track number true (fitting (tabled.left file.now t result.lane))) }
{
    let mut rest = lane;
    let mut at = p;
    loop {
        match site::next(file, t, rest) {
            Stood::End => {
                return Tabled {
                    at,
                    head: dead(number),
                    lane: rest,
                };
            }
            Stood::Over => {
                return Tabled {
                    at,
                    head: dead(number),
                    lane: rest,
                };
            }
            Stood::One {
                number: sample,
                offset,
                size,
                site: after,
            } => {
                let wide = size as u64;
                if goes_on(offset, wide, at, until, end) {
                    at += wide;
                    rest = after;
                } else {
                    return Tabled {
                        at,
                        head: met(number, sample, offset, size),
                        lane: after,
                    };
                }
            }
        }
    }
}

// The same by its runs.
#[derive(Clone, Copy)]
struct Ran {
    pub at: u64,
    pub head: Head,
    pub lane: fragments::Lane,
}

fn by_runs(
    file: &[u8],
    table: &[u64],
    rows: usize,
    number: u32,
    lane: fragments::Lane,
    p: u64,
    until: u64,
    end: u64,
) -> Ran
    requires { (p ≤ end) × (until ≤ end) }
    ensures { Passed until end p (track number true (fitting (fragmented.left file.now (rows_of table.now rows) number lane))) result.at result.head (track number true (fitting (fragmented.left file.now (rows_of table.now rows) number result.lane))) }
{
    let mut rest = lane;
    let mut at = p;
    loop {
        match fragments::next(file, table, rows, number, rest) {
            fragments::Taken::End => {
                return Ran {
                    at,
                    head: dead(number),
                    lane: rest,
                };
            }
            fragments::Taken::Over => {
                return Ran {
                    at,
                    head: dead(number),
                    lane: rest,
                };
            }
            fragments::Taken::One {
                sample,
                lane: after,
            } => {
                let size = sample.size as u64;
                if goes_on(sample.offset, size, at, until, end) {
                    at += size;
                    rest = after;
                } else {
                    return Ran {
                        at,
                        head: met(number, sample.number, sample.offset, sample.size),
                        lane: after,
                    };
                }
            }
        }
    }
}

fn at_most_four(count: usize) -> usize
    ensures { result ≡ min count 4 }
{
    if count < 4 { count } else { 4 }
}

// The sweep of the first `count` tracks: by their tables, or where the file is fragmented by the first `rows` runs of the
// table. Every lane is asked at one place of one loop.
pub fn sweep(
    file: &[u8],
    n: usize,
    starts: &[usize; 4096],
    sizes: &[usize; 4096],
    kinds: &[usize; 4096],
    parents: &[usize; 4096],
    placed: &[usize; 4096],
    numbers: [u32; 4],
    tracks: [tables::Track; 4],
    count: usize,
    table: &[u64],
    rows: usize,
    fragmented: bool,
) -> Option<Finding>
    ensures { result ≡ asked (sweepOf (payloads_from file.now (boxes starts.now sizes.now kinds.now parents.now placed.now) n 0) (tracks_in fragmented file.now (rows_of table.now rows) (take count numbers) (take count tracks))) }
{
    let most = at_most_four(count);
    let none = dead(0);
    let tabled = site::start();
    let ran = fragments::start();
    let mut heads = [none, none, none, none];
    let mut by_table = [tabled, tabled, tabled, tabled];
    let mut by_run = [ran, ran, ran, ran];
    let mut filled: usize = 0;
    let mut p: u64 = 0;
    let mut end: u64 = 0;
    let mut row: usize = 0;
    loop {
        match decide(heads, filled, most, p, end) {
            Turn::Stop(finding) => {
                return Some(finding);
            }
            Turn::Stray(astray) => {
                return stray(file, n, starts, sizes, kinds, parents, placed, astray);
            }
            Turn::Skip => {
                match payloads::next(file, n, row, starts, sizes, kinds, parents, placed) {
                    Payload::End => {
                        return left_over(file, n, starts, sizes, kinds, parents, placed, heads);
                    }
                    Payload::At {
                        from,
                        to,
                        row: after,
                    } => {
                        p = from as u64;
                        end = to as u64;
                        row = after;
                    }
                }
            }
            Turn::Take {
                track: t,
                to,
                until,
                filled: more,
            } => {
                filled = more;
                let number = numbers[t];
                if fragmented {
                    let lane = by_run[t];
                    let a = by_runs(file, table, rows, number, lane, to, until, end);
                    p = a.at;
                    let h = a.head;
                    let further = a.lane;
                    heads[t] = h;
                    by_run[t] = further;
                } else {
                    let track = tracks[t];
                    let lane = by_table[t];
                    let a = by_tables(file, number, track, lane, to, until, end);
                    p = a.at;
                    let h = a.head;
                    let further = a.lane;
                    heads[t] = h;
                    by_table[t] = further;
                }
            }
        }
    }
}
