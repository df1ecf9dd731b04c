#![tactic(auto, unfolding(numbers::specs::Field::when, numbers::specs::Field::field))]
// The samples of one track, from its tables as they lie in the file. A lane is a cursor by value: it gives one sample
// after the other, visits each entry of each table once, and never goes back to the start of a table.
ghost use Rattle.std.specs.Prelude.{◌≡◌, ◌<◌, drop, eqb};
ghost use Rattle.numbers.specs.Field.{when};
ghost use Rattle.tables.specs.Tables.{values_of, chunks};
ghost use Rattle.tables.specs.Samples.{first_or, rest};
ghost use Rattle.tables.specs.Rows.{rows_of};
ghost use Rattle.samples.specs.Lists.{view};
ghost use Rattle.lanes.specs.Lane.{runs_left, shifts_left, syncs_left, left, begun, fresh, shows};
ghost use Rattle.lanes.specs.Steps.{rows_at, Ready, after_of, SamePlaces, PlaceReady, shift_of, MarkReady, sync_of, samples_from};

use samples::{LAST, Sample, TIME_BOUND};
use tables::{Chunks, Rows, Track};

pub mod site;

// A cursor over runs: the next row, how many of the row before are left, and their value.
#[derive(Clone, Copy)]
pub struct Runs {
    pub next: u32,
    pub left: u64,
    pub value: u32,
}

// A cursor over chunks: how many samples of the chunk are left, where the next one lies, the next chunk, and the
// runs of stsc.
#[derive(Clone, Copy)]
pub struct Place {
    pub left: u32,
    pub at: u64,
    pub chunk: u32,
    pub groups: Runs,
}

// The first run from row `from` on that has a value left; left is 0 where there is none. Plain numbers, because this is
// the way that is seldom taken: what a call takes by reference would be stored for every sample.
fn run_fill(file: &[u8], at: usize, count: u32, grouped: bool, chunks: u32, from: u32) -> Runs
    ensures same { runs_left (rows_of file.now (rows_at at count grouped chunks)) result ≡ values_of (drop from (rows_of file.now (rows_at at count grouped chunks))) }
    ensures ready { Ready (rows_of file.now (rows_at at count grouped chunks)) result }
{
    let rows = Rows {
        at,
        count,
        grouped,
        chunks,
    };
    let mut i = from;
    while i < count {
        let e = tables::entry(file, rows, i);
        i += 1;
        if e.count != 0 {
            return Runs {
                next: i,
                left: e.count,
                value: e.value,
            };
        }
    }
    Runs {
        next: i,
        left: 0,
        value: 0,
    }
}

// The cursor with a value left; left is 0 where the table ends.
fn run_ready(file: &[u8], rows: Rows, c: Runs) -> Runs
    ensures same { runs_left (rows_of file.now rows) result ≡ runs_left (rows_of file.now rows) c }
    ensures ready { Ready (rows_of file.now rows) result }
{
    if c.left == 0 {
        let f = run_fill(file, rows.at, rows.count, rows.grouped, rows.chunks, c.next);
        return Runs {
            next: f.next,
            left: f.left,
            value: f.value,
        };
    }
    c
}

// The cursor after the value that it has.
fn run_after(c: Runs) -> Runs
    requires { c.left ≡ 0 → ⊥ }
    ensures { result ≡ after_of c }
{
    Runs {
        next: c.next,
        left: c.left - 1,
        value: c.value,
    }
}

// The cursor with a sample left in its chunk; left is 0 where the chunks or stsc end. Chunks without samples are passed
// over.
fn place_ready(file: &[u8], rows: Rows, t: Chunks, p: Place) -> Place
    ensures same { SamePlaces (rows_of file.now rows) (chunks file.now t) result p }
    ensures ready { PlaceReady (rows_of file.now rows) (chunks file.now t) result }
{
    let mut left = p.left;
    let mut at = p.at;
    let mut chunk = p.chunk;
    let mut runs = p.groups;
    while left == 0 {
        if t.count <= chunk {
            return Place {
                left: 0,
                at,
                chunk,
                groups: runs,
            };
        }
        let r = run_ready(file, rows, runs);
        if r.left == 0 {
            return Place {
                left: 0,
                at,
                chunk,
                groups: r,
            };
        }
        left = r.value;
        at = tables::offset_at(file, t, chunk);
        chunk += 1;
        runs = run_after(r);
    }
    Place {
        left,
        at,
        chunk,
        groups: runs,
    }
}

// A composition offset, and the cursor after it.
#[derive(Clone, Copy)]
struct Shift {
    pub value: u32,
    pub rest: Runs,
}

// The offset that the cursor has, and the cursor after it; 0 where the table has ended.
fn shift_of(c: Runs) -> Shift
    ensures { result ≡ shift_of c }
{
    if c.left == 0 {
        return Shift { value: 0, rest: c };
    }
    Shift {
        value: c.value,
        rest: run_after(c),
    }
}

// Where ctts is short, or absent, the offset is 0.
fn shift_next(file: &[u8], o: Option<tables::Table>, c: Runs) -> Shift
    ensures value { result.value ≡ first_or 0 (shifts_left file.now o c) }
    ensures rest { shifts_left file.now o result.rest ≡ rest (shifts_left file.now o c) }
{
    let Some(t) = o else {
        return Shift { value: 0, rest: c };
    };
    if c.left == 0 {
        let f = run_fill(file, t.at, t.count, false, 0, c.next);
        return shift_of(f);
    }
    shift_of(c)
}

// A cursor over stss: the next entry, and the number of the one before it, until that sample has come; 0 where it has.
#[derive(Clone, Copy)]
pub struct Marks {
    pub next: u32,
    pub number: u32,
}

// The cursor with the next sync sample's number, where there is one. A number 0 is no sample's, and is not passed.
fn mark_ready(file: &[u8], o: Option<tables::Table>, m: Marks) -> Marks
    ensures same { syncs_left file.now o result ≡ syncs_left file.now o m }
    ensures ready { MarkReady file.now o result }
{
    if m.number != 0 {
        return m;
    }
    let Some(t) = o else {
        return m;
    };
    if t.count <= m.next {
        return m;
    }
    let n = words::four(file, t.at, (m.next as usize) * 4);
    if n == 0 {
        return m;
    }
    Marks {
        next: m.next + 1,
        number: n,
    }
}

// Whether the sample of that number is sync, where m is ready.
fn sync_at(o: Option<tables::Table>, m: Marks, number: u32) -> bool
    ensures { result ≡ sync_of o m number }
{
    match o {
        None => true,
        Some(_) => m.number == number,
    }
}

// What is left of the number that was read, when the sample of that number has come.
fn unless_it_is(mark: u32, number: u32) -> u32
    ensures { result ≡ when (eqb mark number) 0 mark }
{
    if mark == number {
        return 0;
    }
    mark
}

// done: how many samples were given; time: the next one's.
#[derive(Clone, Copy)]
pub struct Lane {
    pub done: u32,
    pub time: u64,
    pub times: Runs,
    pub shifts: Runs,
    pub syncs: Marks,
    pub place: Place,
}

// Over: a sample's end passes 2^64 - 1, or its time is 2^63 or more (refusal 9).
#[derive(Clone, Copy)]
pub enum Taken {
    One { sample: Sample, lane: Lane },
    End,
    Over,
}

// A cursor before the first row.
fn new_runs() -> Runs
    ensures { result ≡ begun }
{
    Runs {
        next: 0,
        left: 0,
        value: 0,
    }
}

// A lane that begins.
pub fn start() -> Lane
    ensures { result ≡ fresh }
{
    let times = new_runs();
    let shifts = new_runs();
    let groups = new_runs();
    Lane {
        done: 0,
        time: 0,
        times,
        shifts,
        syncs: Marks { next: 0, number: 0 },
        place: Place {
            left: 0,
            at: 0,
            chunk: 0,
            groups,
        },
    }
}

// The sample of that number, size and duration at p's place, and the lane after it.
fn give(
    file: &[u8],
    track: Track,
    lane: Lane,
    number: u32,
    size: u32,
    duration: u32,
    times: Runs,
    p: Place,
) -> Taken
    requires { (0 < number) × (p.left ≡ 0 → ⊥) }
    ensures { shows file.now track result ≡ view (samples_from file.now track lane number size duration times p) }
{
    let time = lane.time;
    let wide = size as u64;
    let lasts = duration as u64;
    if LAST - p.at < wide {
        return Taken::Over;
    }
    if TIME_BOUND <= time {
        return Taken::Over;
    }
    let end = p.at + wide;
    let later = time + lasts;
    let ctts = track.ctts;
    let shifts = lane.shifts;
    let shift = shift_next(file, ctts, shifts);
    let stss = track.stss;
    let marks = lane.syncs;
    let ready = mark_ready(file, stss, marks);
    let sync = sync_at(stss, ready, number);
    let composition = words::as_signed(shift.value);
    let further = shift.rest;
    let runs = p.groups;
    Taken::One {
        sample: Sample {
            number,
            offset: p.at,
            size,
            time,
            duration,
            composition,
            sync,
        },
        lane: Lane {
            done: number,
            time: later,
            times,
            shifts: further,
            syncs: Marks {
                next: ready.next,
                number: unless_it_is(ready.number, number),
            },
            place: Place {
                left: p.left - 1,
                at: end,
                chunk: p.chunk,
                groups: runs,
            },
        },
    }
}

// The next sample, and the lane after it. There is none where stsz, stts or stsc has no more.
pub fn next(file: &[u8], track: Track, lane: Lane) -> Taken
    ensures { shows file.now track result ≡ view (left file.now track lane) }
{
    let sizes = track.stsz;
    let done = lane.done;
    if sizes.count <= done {
        return Taken::End;
    }
    let number = done + 1;
    let size = tables::size_at(file, sizes, done);
    let stts = track.stts;
    let times = lane.times;
    let runs = run_ready(file, tables::pairs(stts), times);
    if runs.left == 0 {
        return Taken::End;
    }
    let chunks = track.stco;
    let stsc = track.stsc;
    let place = lane.place;
    let p = place_ready(file, tables::groups(stsc, chunks.count), chunks, place);
    if p.left == 0 {
        return Taken::End;
    }
    let rest = run_after(runs);
    give(file, track, lane, number, size, runs.value, rest, p)
}
