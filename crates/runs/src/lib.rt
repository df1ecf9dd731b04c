#![tactic(auto, unfolding(numbers::specs::Field::when, numbers::specs::Field::field))]
// One run of samples of a fragmented file (ISO/IEC 14496-12, 8.8.8), walked sample by sample. A sample's own values are
// read where the trun lies in the file; what it does not say of itself comes from the run.
ghost use Rattle.std.specs.Prelude.{◌≡◌, drop};
ghost use Rattle.samples.specs.Lists.{view};
ghost use Rattle.runs.specs.Values.{own_of, flags_by, flags_at, sync_by};
ghost use Rattle.runs.specs.Lane.{begun, left, shows, up_to, up_to_by};

use samples::{LAST, Sample, TIME_BOUND};
use trun::Trun;

// The last number of a sample.
const LAST_NUMBER: u32 = 0xFFFF_FFFF;

// The flags of trun.
const FIRST_FLAGS_BIT: u32 = 0x4;

const DURATION_BIT: u32 = 0x100;

const SIZE_BIT: u32 = 0x200;

const FLAGS_BIT: u32 = 0x400;

// The flag of a sample that is not sync.
const NOT_SYNC_BIT: u32 = 0x10000;

// start: where the first sample's data lie; time: its decode time; at: where the entries of the trun begin; duration,
// size and flags: of a sample that does not say its own.
#[derive(Clone, Copy)]
pub struct Run {
    pub track: u32,
    pub start: u64,
    pub time: u64,
    pub at: usize,
    pub trun: Trun,
    pub duration: u32,
    pub size: u32,
    pub flags: u32,
}

// The file from `at` on.
fn from(file: &[u8], at: usize) -> &[u8]
    ensures { result.now ≡ drop at file.now }
{
    if file.len() < at {
        return &file[..0];
    }
    &file[at..]
}

// What the i-th sample says of itself; zeros where the file does not hold its entry whole.
pub fn own(file: &[u8], run: Run, i: u32) -> trun::Sample
    ensures { result ≡ own_of file.now run i }
{
    let trun = run.trun;
    match trun::entry(trun, from(file, run.at), i) {
        Ok(s) => s,
        Err(_) => trun::Sample {
            duration: 0,
            size: 0,
            flags: 0,
            composition_offset: 0,
        },
    }
}

// The flags of the i-th sample, which has those of its own.
fn flags_of(run: Run, mine: u32, i: u32) -> u32
    ensures { result ≡ flags_by run mine i }
{
    let trun = run.trun;
    if bits::is_set(trun.flags, FLAGS_BIT) {
        return mine;
    }
    if i == 0 {
        return bits::chosen(
            trun.flags,
            FIRST_FLAGS_BIT,
            trun.first_sample_flags,
            run.flags,
        );
    }
    run.flags
}

fn is_sync(flags: u32) -> bool
    ensures { result ≡ sync_by flags }
{
    if bits::is_set(flags, NOT_SYNC_BIT) {
        return false;
    }
    true
}

// Whether the i-th sample is sync, by its flags alone: what comes before it is not looked at.
pub fn sync_at(file: &[u8], run: Run, i: u32) -> bool
    ensures { result ≡ sync_by (flags_at file.now run i) }
{
    let mine = own(file, run, i);
    let set = flags_of(run, mine.flags, i);
    is_sync(set)
}

// A cursor in a run. index: the next sample, counted from 0 in the run; number: how many samples came before it, in this
// run and before it; offset and time: its own.
#[derive(Clone, Copy)]
pub struct Lane {
    pub index: u32,
    pub number: u32,
    pub offset: u64,
    pub time: u64,
}

// Over: a sample's end passes 2^64 - 1, its time is 2^63 or more, or its number passes 2^32 - 1.
#[derive(Clone, Copy)]
pub enum Taken {
    One { sample: Sample, lane: Lane },
    End,
    Over,
}

// A lane that begins, after that many samples of runs before.
pub fn begin(run: Run, number: u32) -> Lane
    ensures { result ≡ begun run number }
{
    Lane {
        index: 0,
        number,
        offset: run.start,
        time: run.time,
    }
}

// The next sample of the run, and the lane after it, which knows as well as the one before how many samples there are
// up to the run's end.
pub fn next(file: &[u8], run: Run, lane: Lane) -> Taken
    ensures sample { shows file.now run result ≡ view (left file.now run lane) }
    ensures number { up_to_by run result (up_to run lane) ≡ up_to run lane }
{
    let trun = run.trun;
    let i = lane.index;
    if trun.sample_count <= i {
        return Taken::End;
    }
    if lane.number == LAST_NUMBER {
        return Taken::Over;
    }
    let mine = own(file, run, i);
    let size = bits::chosen(trun.flags, SIZE_BIT, mine.size, run.size);
    let wide = size as u64;
    if LAST - lane.offset < wide {
        return Taken::Over;
    }
    if TIME_BOUND <= lane.time {
        return Taken::Over;
    }
    let duration = bits::chosen(trun.flags, DURATION_BIT, mine.duration, run.duration);
    let flags = flags_of(run, mine.flags, i);
    let number = lane.number + 1;
    Taken::One {
        sample: Sample {
            number,
            offset: lane.offset,
            size,
            time: lane.time,
            duration,
            composition: mine.composition_offset,
            sync: is_sync(flags),
        },
        lane: Lane {
            index: i + 1,
            number,
            offset: lane.offset + wide,
            time: lane.time + (duration as u64),
        },
    }
}
