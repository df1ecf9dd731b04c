#![tactic(auto, unfolding(numbers::specs::Field::when, numbers::specs::Field::field))]
// The samples of a track, told by its tables or, in a fragmented file, by its runs: all of them or one of them as records
// in a lent buffer, how many there are, and the bytes of all.
ghost use Rattle.std.specs.Prelude.{◌≡◌};
ghost use Rattle.samples.specs.Lists.{lookup_of};
ghost use Rattle.samples.specs.Records.{output, list_of};
ghost use Rattle.lookup.specs.Lookup.{sync_of};
ghost use Rattle.runtable.specs.Table.{rows_of};
ghost use Rattle.tracksamples.specs.TrackSamples.{samples_from, one_of, count_of, total_of, sample_by, recorded, narrow_of, whole_of};

use numbers::Refusal;
use samples::{Located, Sample};
use tables::Track;

// Where the samples of a track are told: by its tables; in a fragmented file by the runs that have its number.
#[derive(Clone, Copy)]
pub struct Source {
    pub tables: Track,
    pub number: u32,
    pub fragmented: bool,
}

// Every sample as a record, one behind the other; or the buffer as it was, and Overflow where a sample does not fit,
// then TooSmall where the records have no room. The runs are the first rows of the table.
pub fn list(
    file: &[u8],
    source: Source,
    runs: &[u64],
    rows: usize,
    out: &mut [u64],
) -> Result<usize, Refusal>
    ensures { output result out.new ≡ list_of (samples_from file.now source (rows_of runs.now rows)) out.old }
{
    if source.fragmented {
        return runlists::list(file, runs, rows, source.number, out);
    }
    lists::list(file, source.tables, out)
}

// The place, size and times of the sample of that number.
fn found(
    file: &[u8],
    source: Source,
    runs: &[u64],
    rows: usize,
    number: u32,
) -> Result<Located, Refusal>
    ensures { result ≡ lookup_of (samples_from file.now source (rows_of runs.now rows)) number }
{
    if source.fragmented {
        return runlookup::sample(file, runs, rows, source.number, number);
    }
    locate::sample(file, source.tables, number)
}

// Whether it is sync.
fn synced(
    file: &[u8],
    source: Source,
    runs: &[u64],
    rows: usize,
    number: u32,
) -> Result<bool, Refusal>
    ensures { result ≡ sync_of (samples_from file.now source (rows_of runs.now rows)) number }
{
    if source.fragmented {
        return runlookup::is_sync(file, runs, rows, source.number, number);
    }
    lookup::is_sync(file, source.tables, number)
}

// A sample as the first record of the buffer.
fn put_one(out: &mut [u64], number: u32, place: Located, sync: bool) -> Result<usize, Refusal>
    ensures { output result out.new ≡ recorded out.old (sample_by number place sync) }
{
    if out.len() < samples::RECORD {
        return Err(Refusal::TooSmall(1));
    }
    samples::put(
        out,
        0,
        Sample {
            number,
            offset: place.offset,
            size: place.size,
            time: place.time,
            duration: place.duration,
            composition: place.composition,
            sync,
        },
    );
    Ok(1)
}

// The sample of that number, counted from 1, as the first record of the buffer; or the buffer as it was, and NoSample
// with the number where there is none, Overflow where it does not fit, then TooSmall where the record has no room.
pub fn sample(
    file: &[u8],
    source: Source,
    runs: &[u64],
    rows: usize,
    number: u32,
    out: &mut [u64],
) -> Result<usize, Refusal>
    ensures { output result out.new ≡ one_of (samples_from file.now source (rows_of runs.now rows)) number out.old }
{
    let place = found(file, source, runs, rows, number)?;
    let sync = synced(file, source, runs, rows, number)?;
    put_one(out, number, place, sync)
}

// A number of samples in 32 bits.
fn narrow(tally: Option<u64>) -> Result<u32, Refusal>
    ensures { result ≡ narrow_of tally }
{
    match tally {
        None => Err(Refusal::Overflow),
        Some(n) => {
            if 0xffff_ffff < n {
                return Err(Refusal::Overflow);
            }
            Ok(n as u32)
        }
    }
}

// How many samples there are; Overflow where 32 bits do not number them.
pub fn count(file: &[u8], source: Source, runs: &[u64], rows: usize) -> Result<u32, Refusal>
    ensures { result ≡ count_of (samples_from file.now source (rows_of runs.now rows)) }
{
    if source.fragmented {
        return narrow(runlookup::count(runs, rows, source.number));
    }
    Ok(lookup::count(file, source.tables))
}

// A number of bytes in 64 bits.
fn whole(tally: Option<u64>) -> Result<u64, Refusal>
    ensures { result ≡ whole_of tally }
{
    match tally {
        None => Err(Refusal::Overflow),
        Some(n) => Ok(n),
    }
}

// The bytes of all samples; Overflow where their sum has no 64 bits.
pub fn total(file: &[u8], source: Source, runs: &[u64], rows: usize) -> Result<u64, Refusal>
    ensures { result ≡ total_of (samples_from file.now source (rows_of runs.now rows)) }
{
    if source.fragmented {
        return whole(runbytes::total(file, runs, rows, source.number));
    }
    Ok(lookup::total(file, source.tables))
}
