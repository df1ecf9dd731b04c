#![tactic(auto, unfolding(numbers::specs::Field::when, numbers::specs::Field::field))]
// How many samples a track has, the bytes of all, and whether one is sync: from the tables as they lie in the file, entries
// passed over whole.
ghost use Rattle.std.specs.Prelude.{◌≡◌, min, length, take};
ghost use Rattle.samples.specs.Lists.{bytes_of};
ghost use Rattle.tables.specs.Tables.{sum, values_of, pairs, groups, syncs};
ghost use Rattle.tables.specs.Samples.{sync_at, samples_of};
ghost use Rattle.lookup.specs.Lookup.{sync_of};

use numbers::Refusal;
use seek::{Spot, Value};
use tables::{Table, Track};

// How many of so many samples have a duration.
fn timed(file: &[u8], stts: Table, bound: u32) -> u32
    ensures { result ≡ min bound (length (values_of (pairs file.now stts))) }
{
    if bound == 0 {
        return 0;
    }
    match seek::value_at(file, tables::pairs(stts), bound - 1) {
        Value::At { value: _, sum: _ } => bound,
        Value::Few(n) => n,
    }
}

// How many of so many samples lie in a chunk.
fn placed(file: &[u8], stsc: Table, chunks: u32, bound: u32) -> u32
    ensures { result ≡ min bound (sum (take chunks (values_of (groups file.now stsc chunks)))) }
{
    if bound == 0 {
        return 0;
    }
    match seek::chunk_at(file, tables::groups(stsc, chunks), bound - 1) {
        Spot::At {
            chunk: _,
            within: _,
        } => bound,
        Spot::Few(n) => n,
    }
}

// How many samples a track has: as many as have a size, a duration and a place.
pub fn count(file: &[u8], track: Track) -> u32
    ensures { result ≡ length (samples_of file.now track) }
{
    let sizes = track.stsz;
    let stts = track.stts;
    let stsc = track.stsc;
    let chunks = track.stco;
    placed(file, stsc, chunks.count, timed(file, stts, sizes.count))
}

// The bytes of all samples of a track.
pub fn total(file: &[u8], track: Track) -> u64
    ensures { result ≡ bytes_of (samples_of file.now track) }
{
    let sizes = track.stsz;
    seek::span(file, sizes, 0, count(file, track))
}

// Whether the sample of that number is sync: all are where there is no stss.
fn flag(file: &[u8], stss: Option<Table>, number: u32) -> bool
    ensures { result ≡ sync_at (syncs file.now stss) number }
{
    let Some(t) = stss else {
        return true;
    };
    let mut last = 0;
    let mut i = 0;
    while i < t.count {
        let n = words::four(file, t.at, (i as usize) * 4);
        if n <= last {
            return false;
        }
        if n == number {
            return true;
        }
        last = n;
        i += 1;
    }
    false
}

// Whether the sample of that number is sync; 11 where there is none.
pub fn is_sync(file: &[u8], track: Track, number: u32) -> Result<bool, Refusal>
    ensures { result ≡ sync_of (samples_of file.now track) number }
{
    if number == 0 {
        return Err(Refusal::NoSample(number as usize));
    }
    if count(file, track) < number {
        return Err(Refusal::NoSample(number as usize));
    }
    let stss = track.stss;
    Ok(flag(file, stss, number))
}
