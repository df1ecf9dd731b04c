#![tactic(auto, unfolding(numbers::specs::Field::when, numbers::specs::Field::field))]
// The sums of a run's samples (ISO/IEC 14496-12, 8.8.8): where their data end, and how long they last.
ghost use Rattle.std.specs.Prelude.{◌≡◌, ◌+◌};
ghost use Rattle.runs.specs.Values.{duration_at, size_at};
ghost use Rattle.runs.specs.Samples.{bytes_in, end_by, end_of, durations_in};

use runs::Run;
use samples::LAST;

const DURATION_BIT: u32 = 0x100;

const SIZE_BIT: u32 = 0x200;

// The size of the i-th sample.
fn size_at(file: &[u8], run: Run, i: u32) -> u32
    ensures { result ≡ size_at file.now run i }
{
    let trun = run.trun;
    let mine = runs::own(file, run, i);
    bits::chosen(trun.flags, SIZE_BIT, mine.size, run.size)
}

// What follows a position and all sizes, one after the other.
fn end_by_one(file: &[u8], run: Run, from: u64) -> Option<u64>
    ensures { result ≡ end_by (from + bytes_in file.now run) }
{
    let trun = run.trun;
    let count = trun.sample_count;
    let mut at = from;
    let mut i = 0;
    while i < count {
        let size = size_at(file, run, i) as u64;
        if LAST - at < size {
            return None;
        }
        at += size;
        i += 1;
    }
    Some(at)
}

// What follows a position and all sizes of the run.
pub fn reach(file: &[u8], run: Run, from: u64) -> Option<u64>
    ensures { result ≡ end_by (from + bytes_in file.now run) }
{
    let trun = run.trun;
    if bits::is_set(trun.flags, SIZE_BIT) {
        return end_by_one(file, run, from);
    }
    let all = (trun.sample_count as u64) * (run.size as u64);
    if LAST - from < all {
        return None;
    }
    Some(from + all)
}

// Where the run's data end: its start and all sizes.
pub fn end(file: &[u8], run: Run) -> Option<u64>
    ensures { result ≡ end_of file.now run }
{
    let start = run.start;
    reach(file, run, start)
}

// The duration of the i-th sample.
fn duration_at(file: &[u8], run: Run, i: u32) -> u32
    ensures { result ≡ duration_at file.now run i }
{
    let trun = run.trun;
    let mine = runs::own(file, run, i);
    bits::chosen(trun.flags, DURATION_BIT, mine.duration, run.duration)
}

// How long the samples of the run last that say it, one after the other: 2^32 numbers of 32 bits fit together.
fn lasts_by_one(file: &[u8], run: Run) -> u64
    ensures { result ≡ durations_in file.now run }
{
    let trun = run.trun;
    let count = trun.sample_count;
    let mut sum = 0;
    let mut i = 0;
    while i < count {
        sum += duration_at(file, run, i) as u64;
        i += 1;
    }
    sum
}

// How long the run's samples last together.
pub fn lasts(file: &[u8], run: Run) -> u64
    ensures { result ≡ durations_in file.now run }
{
    let trun = run.trun;
    if bits::is_set(trun.flags, DURATION_BIT) {
        return lasts_by_one(file, run);
    }
    (trun.sample_count as u64) * (run.duration as u64)
}
