#![tactic(auto, unfolding(numbers::specs::Field::when, numbers::specs::Field::field))]
// The samples of one track of a fragmented file: those of its runs, one run after the other. The runs of a file are lent
// as a table (crate `runtable`), of all tracks, in the order of the file. A lane passes over the rows of other tracks and
// visits each row once.
ghost use Rattle.std.specs.Prelude.{◌≡◌, ◌+◌, drop};
ghost use Rattle.samples.specs.Lists.{view};
ghost use Rattle.runs.specs.Lane as inner;
ghost use Rattle.runtable.specs.Table.{rows_of};
ghost use Rattle.fragments.specs.Samples.{mine, count_of, samples_after};
ghost use Rattle.fragments.specs.Lane.{fresh, left, shows};

use runs::Run;
use samples::Sample;
use trun::Trun;

// next: the next row; run: the one before it that is the track's, and inside: the cursor in it.
#[derive(Clone, Copy)]
pub struct Lane {
    pub next: usize,
    pub run: Run,
    pub inside: runs::Lane,
}

// Over: a sample's end passes 2^64 - 1, its time is 2^63 or more, or its number passes 2^32 - 1.
#[derive(Clone, Copy)]
pub enum Taken {
    One { sample: Sample, lane: Lane },
    End,
    Over,
}

// A lane that begins: before the first row, in a run without samples.
pub fn start() -> Lane
    ensures { result ≡ fresh }
{
    Lane {
        next: 0,
        run: Run {
            track: 0,
            start: 0,
            time: 0,
            at: 0,
            trun: Trun {
                version: 0,
                flags: 0,
                sample_count: 0,
                data_offset: 0,
                first_sample_flags: 0,
            },
            duration: 0,
            size: 0,
            flags: 0,
        },
        inside: runs::Lane {
            index: 0,
            number: 0,
            offset: 0,
            time: 0,
        },
    }
}

// The first sample of a run, after that many samples of the track; none where the run is another track's.
fn first(file: &[u8], run: Run, track: u32, number: u32) -> runs::Taken
    ensures sample { inner.shows file.now run result ≡ view (mine file.now track run number) }
    ensures number { inner.up_to_by run result (number + count_of track run) ≡ number + count_of track run }
{
    if run.track == track {
        let inside = runs::begin(run, number);
        return runs::next(file, run, inside);
    }
    runs::Taken::End
}

// The next sample from row `from` on, after that many samples of the track: runs without samples are passed over.
fn refill(file: &[u8], table: &[u64], count: usize, track: u32, number: u32, from: usize) -> Taken
    ensures { shows file.now (rows_of table.now count) track result ≡ view (samples_after file.now track number (drop from (rows_of table.now count))) }
{
    let mut i = from;
    while i < count {
        let Some(run) = runtable::row(table, i) else {
            return Taken::End;
        };
        i += 1;
        match first(file, run, track, number) {
            runs::Taken::One { sample, lane } => {
                return Taken::One {
                    sample,
                    lane: Lane {
                        next: i,
                        run,
                        inside: lane,
                    },
                };
            }
            runs::Taken::Over => {
                return Taken::Over;
            }
            runs::Taken::End => {}
        }
    }
    Taken::End
}

// The next sample of the track, by the first `count` rows of the table, and the lane after it.
pub fn next(file: &[u8], table: &[u64], count: usize, track: u32, lane: Lane) -> Taken
    ensures { shows file.now (rows_of table.now count) track result ≡ view (left file.now (rows_of table.now count) track lane) }
{
    let run = lane.run;
    let inside = lane.inside;
    match runs::next(file, run, inside) {
        runs::Taken::One {
            sample,
            lane: further,
        } => Taken::One {
            sample,
            lane: Lane {
                next: lane.next,
                run,
                inside: further,
            },
        },
        runs::Taken::Over => Taken::Over,
        runs::Taken::End => refill(file, table, count, track, inside.number, lane.next),
    }
}
