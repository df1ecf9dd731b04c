#![tactic(auto, unfolding(numbers::specs::Field::when, numbers::specs::Field::field))]
// The bytes of all samples of a track of a fragmented file: the rows are walked, and the sizes of each run added.
ghost use Rattle.std.specs.Prelude.{◌≡◌, ◌+◌};
ghost use Rattle.samples.specs.Lists.{bytes_of};
ghost use Rattle.runs.specs.Samples.{end_by};
ghost use Rattle.runtable.specs.Table.{rows_of};
ghost use Rattle.fragments.specs.Samples.{samples_of_runs};
ghost use Rattle.runlookup.specs.Lookup.{counted, bytes_of_run};

use runs::Run;

// What follows a position and the sizes of the track's samples in a run.
fn bytes_after(file: &[u8], run: Run, track: u32, from: u64) -> Option<u64>
    ensures { result ≡ end_by (from + bytes_of_run file.now track run) }
{
    if track == run.track {
        return runsums::reach(file, run, from);
    }
    Some(from)
}

// The bytes of all samples of the track in the first n rows of the table.
pub fn total(file: &[u8], table: &[u64], n: usize, track: u32) -> Option<u64>
    ensures { result ≡ counted (bytes_of (samples_of_runs file.now (rows_of table.now n) track)) }
{
    let mut sum = 0;
    let mut i = 0;
    while i < n {
        let Some(run) = runtable::row(table, i) else {
            return Some(sum);
        };
        sum = bytes_after(file, run, track, sum)?;
        i += 1;
    }
    Some(sum)
}
