#![tactic(auto, unfolding(numbers::specs::Field::when, numbers::specs::Field::field))]
// The audit's pass over the samples of a track of a fragmented file: whether each of them fits, then F2 and F3, sample by
// sample. One walk over the runs, to their end, since a sample behind a finding may not fit.
ghost use Rattle.std.specs.Prelude.{◌≡◌};
ghost use Rattle.runtable.specs.Table.{rows_of};
ghost use Rattle.fragments.specs.Samples.{samples_of_runs};
ghost use Rattle.passes.specs.Passed.{passed_of};
ghost use Rattle.runpasses.specs.Walk.{after_sample, told_of};

use fragments::Taken;
use passes::Passed;

// What is found up to a sample of that number and size: the finding that there was; else F3 of the sample before it, which
// came as number `before`, where that one is idle, since another follows it now; else F2 of this one.
fn after_sample(
    so: Option<verdicts::Finding>,
    track: u32,
    idle: bool,
    before: u32,
    number: u32,
    size: u32,
) -> Option<verdicts::Finding>
    ensures { result ≡ after_sample so track idle before number size }
{
    if let Some(x) = so {
        return Some(x);
    }
    if idle {
        return Some(passes::finding(3, track, before));
    }
    if size == 0 {
        return Some(passes::finding(2, track, number));
    }
    None
}

// What was found in so many samples.
fn told(so: Option<verdicts::Finding>, n: usize) -> Passed
    ensures { result ≡ told_of n so }
{
    match so {
        Some(x) => Passed::Found(x),
        None => Passed::Fine(n),
    }
}

// The pass over the samples of a track in the first n rows of the table: the first finding, F2 before F3 at one sample.
// That a sample lasts no time is a finding once another follows it.
pub fn runs(file: &[u8], table: &[u64], n: usize, track: u32) -> Passed
    ensures { result ≡ passed_of track (samples_of_runs file.now (rows_of table.now n) track) }
{
    let mut lane = fragments::start();
    let mut so = None;
    let mut idle = false;
    let mut i: usize = 0;
    loop {
        match fragments::next(file, table, n, track, lane) {
            Taken::End => {
                return told(so, i);
            }
            Taken::Over => {
                return Passed::Over;
            }
            Taken::One {
                sample,
                lane: after,
            } => {
                so = after_sample(so, track, idle, i as u32, sample.number, sample.size);
                idle = sample.duration == 0;
                i += 1;
                lane = after;
            }
        }
    }
}
