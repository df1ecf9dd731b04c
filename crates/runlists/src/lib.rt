#![tactic(auto, unfolding(numbers::specs::Field::when, numbers::specs::Field::field))]
// The samples of a track of a fragmented file, as its runs tell them: all of them as records in a lent buffer.
ghost use Rattle.std.specs.Prelude.{◌≡◌};
ghost use Rattle.samples.specs.Records.{output, list_of};
ghost use Rattle.lists.specs.Count.{count_of, Filled};
ghost use Rattle.runtable.specs.Table.{rows_of};
ghost use Rattle.fragments.specs.Samples.{samples_of_runs};

use fragments::Taken;
use numbers::Refusal;

// The samples one by one: counted, and put into the buffer as far as it has room. One loop serves the count and the
// listing, so that the lane's step is there once, inside of it.
fn fill(file: &[u8], table: &[u64], n: usize, track: u32, out: &mut [u64]) -> Option<usize>
    ensures count { result ≡ count_of (samples_of_runs file.now (rows_of table.now n) track) }
    ensures records { Filled (samples_of_runs file.now (rows_of table.now n) track) out.old out.new }
{
    let mut lane = fragments::start();
    let mut i: usize = 0;
    loop {
        match fragments::next(file, table, n, track, lane) {
            Taken::End => {
                return Some(i);
            }
            Taken::Over => {
                return None;
            }
            Taken::One {
                sample,
                lane: after,
            } => {
                samples::put(out, i, sample);
                i += 1;
                lane = after;
            }
        }
    }
}

// How many samples there are, where each of them fits: counted one by one, by a buffer that has room for none.
fn count(file: &[u8], table: &[u64], n: usize, track: u32) -> Option<usize>
    ensures { result ≡ count_of (samples_of_runs file.now (rows_of table.now n) track) }
{
    let mut none = [0u64; 1];
    fill(file, table, n, track, &mut none)
}

// Every sample of the track in the first n rows of the table as a record, one behind the other; or the buffer as it was,
// and Overflow where a sample does not fit, then TooSmall where the records have no room.
pub fn list(
    file: &[u8],
    table: &[u64],
    n: usize,
    track: u32,
    out: &mut [u64],
) -> Result<usize, Refusal>
    ensures { output result out.new ≡ list_of (samples_of_runs file.now (rows_of table.now n) track) out.old }
{
    let Some(many) = count(file, table, n, track) else {
        return Err(Refusal::Overflow);
    };
    if out.len() / samples::RECORD < many {
        return Err(Refusal::TooSmall(many));
    }
    fill(file, table, n, track, out);
    Ok(many)
}
