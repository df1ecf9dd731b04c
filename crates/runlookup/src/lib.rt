#![tactic(auto, unfolding(numbers::specs::Field::when, numbers::specs::Field::field))]
// How many samples a track of a fragmented file has, one of them by its number, and whether it is sync: the rows are walked
// by their counts, then, for the sample, those of one run.
ghost use Rattle.std.specs.Prelude.{◌≡◌, drop};
ghost use Rattle.samples.specs.Lists.{view, lookup_of};
ghost use Rattle.lookup.specs.Lookup.{sync_of};
ghost use Rattle.runs.specs.Samples.{run_samples};
ghost use Rattle.runs.specs.Lane as inner;
ghost use Rattle.runtable.specs.Table.{rows_of};
ghost use Rattle.fragments.specs.Samples.{count_of, count_in, samples_of_runs};
ghost use Rattle.runlookup.specs.Lookup.{counted, place_in};

use numbers::Refusal;
use runs::Run;
use samples::Located;

const LAST: u64 = 0xFFFF_FFFF_FFFF_FFFF;

// How many samples of the track a run has.
fn count_of(run: Run, track: u32) -> u32
    ensures { result ≡ count_of track run }
{
    if run.track == track {
        let trun = run.trun;
        return trun.sample_count;
    }
    0
}

// How many samples the track has in the first n rows of the table.
pub fn count(table: &[u64], n: usize, track: u32) -> Option<u64>
    ensures { result ≡ counted (count_in track (rows_of table.now n)) }
{
    let mut many = 0;
    let mut i = 0;
    while i < n {
        let Some(run) = runtable::row(table, i) else {
            return Some(many);
        };
        let more = count_of(run, track) as u64;
        if LAST - many < more {
            return None;
        }
        many += more;
        i += 1;
    }
    Some(many)
}

// A sample's place: its run, how many samples of the track come before the run, and how many in it.
#[derive(Clone, Copy)]
enum Place {
    At { run: Run, earlier: u32, index: u32 },
    Missing,
}

// The place of the sample after `skip` others of the track.
fn place_of(table: &[u64], n: usize, track: u32, skip: u32) -> Place
    ensures { result ≡ place_in track 0 skip (rows_of table.now n) }
{
    let mut left = skip;
    let mut i = 0;
    while i < n {
        let Some(run) = runtable::row(table, i) else {
            return Place::Missing;
        };
        let own = count_of(run, track);
        if left < own {
            return Place::At {
                run,
                earlier: skip - left,
                index: left,
            };
        }
        left -= own;
        i += 1;
    }
    Place::Missing
}

// The sample of that index in a run. Where one before it does not fit, it does not either: ends, times and numbers rise.
fn nth(file: &[u8], run: Run, earlier: u32, index: u32) -> runs::Taken
    ensures { inner.shows file.now run result ≡ view (drop index (run_samples file.now run earlier)) }
{
    let trun = run.trun;
    if trun.sample_count <= index {
        return runs::Taken::End;
    }
    let mut lane = runs::begin(run, earlier);
    let mut i = 0;
    while i < index {
        match runs::next(file, run, lane) {
            runs::Taken::One {
                sample,
                lane: further,
            } => {
                lane = further;
            }
            runs::Taken::Over => {
                return runs::Taken::Over;
            }
            runs::Taken::End => {
                return runs::Taken::End;
            }
        }
        i += 1;
    }
    runs::next(file, run, lane)
}

// The sample of that number, counted from 1; NoSample with the number where there is none, Overflow where it does not fit
// (A14).
pub fn sample(
    file: &[u8],
    table: &[u64],
    n: usize,
    track: u32,
    number: u32,
) -> Result<Located, Refusal>
    ensures { result ≡ lookup_of (samples_of_runs file.now (rows_of table.now n) track) number }
{
    if number == 0 {
        return Err(Refusal::NoSample(0));
    }
    match place_of(table, n, track, number - 1) {
        Place::Missing => Err(Refusal::NoSample(number as usize)),
        Place::At {
            run,
            earlier,
            index,
        } => match nth(file, run, earlier, index) {
            runs::Taken::One { sample, lane } => Ok(Located {
                offset: sample.offset,
                size: sample.size,
                time: sample.time,
                duration: sample.duration,
                composition: sample.composition,
            }),
            runs::Taken::Over => Err(Refusal::Overflow),
            runs::Taken::End => Err(Refusal::NoSample(number as usize)),
        },
    }
}

// Whether the sample of that number is sync, counted from 1, fit or not; NoSample with the number where there is none.
pub fn is_sync(
    file: &[u8],
    table: &[u64],
    n: usize,
    track: u32,
    number: u32,
) -> Result<bool, Refusal>
    ensures { result ≡ sync_of (samples_of_runs file.now (rows_of table.now n) track) number }
{
    if number == 0 {
        return Err(Refusal::NoSample(0));
    }
    let skip = number - 1;
    match place_of(table, n, track, skip) {
        Place::Missing => Err(Refusal::NoSample(number as usize)),
        Place::At {
            run,
            earlier,
            index,
        } => Ok(runs::sync_at(file, run, index)),
    }
}
