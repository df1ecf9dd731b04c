#![tactic(auto, unfolding(numbers::specs::Field::when, numbers::specs::Field::field))]
// One sample of a track by its number: where it lies, and when it is shown. From the tables as they lie in the file, entries
// passed over whole; the sizes of one chunk are all that is visited sample by sample.
ghost use Rattle.std.specs.Prelude.{◌≡◌, [], ◌∷◌, ◌+◌, leb};
ghost use Rattle.samples.specs.Lists.{first_of, lookup_of};
ghost use Rattle.tables.specs.Samples.{samples_of};
ghost use Rattle.lookup.specs.Lookup.{shift_at, sample_at};

use numbers::Refusal;
use samples::{LAST, Located, TIME_BOUND};
use seek::{Spot, Value};
use tables::{Sizes, Track};

// The composition offset of sample k, counted from 0: 0 where ctts is short, or absent.
fn shift(file: &[u8], ctts: Option<tables::Table>, k: u32) -> u32
    ensures { result ≡ shift_at file.now ctts k }
{
    let Some(t) = ctts else {
        return 0;
    };
    match seek::value_at(file, tables::pairs(t), k) {
        Value::At { value, sum: _ } => value,
        Value::Few(_) => 0,
    }
}

// Sample k, counted from 0: its chunk begins at `first`, and `gone` bytes of it come before.
fn told(
    file: &[u8],
    track: Track,
    k: u32,
    number: u32,
    first: u64,
    gone: u64,
    size: u32,
    time: u64,
    duration: u32,
) -> Result<Located, Refusal>
    ensures { result ≡ first_of number (sample_at file.now track k number (first + gone) size time duration ∷ []) }
{
    if LAST - first < gone {
        return Err(Refusal::Overflow);
    }
    let at = first + gone;
    if LAST - at < (size as u64) {
        return Err(Refusal::Overflow);
    }
    if TIME_BOUND <= time {
        return Err(Refusal::Overflow);
    }
    let ctts = track.ctts;
    let composition = words::as_signed(shift(file, ctts, k));
    Ok(Located {
        offset: at,
        size,
        time,
        duration,
        composition,
    })
}

// Whether stsz does not count sample k, counted from 0: a common size reaches no further.
fn uncounted(t: Sizes, k: u32) -> bool
    ensures { result ≡ leb t.count k }
{
    t.count <= k
}

// The sample of that number, counted from 1; NoSample where there is none, Overflow where it does not fit.
pub fn sample(file: &[u8], track: Track, number: u32) -> Result<Located, Refusal>
    ensures { result ≡ lookup_of (samples_of file.now track) number }
{
    if number == 0 {
        return Err(Refusal::NoSample(number as usize));
    }
    let k = number - 1;
    let sizes = track.stsz;
    if uncounted(sizes, k) {
        return Err(Refusal::NoSample(number as usize));
    }
    let size = tables::size_at(file, sizes, k);
    let stts = track.stts;
    let Value::At { value, sum } = seek::value_at(file, tables::pairs(stts), k) else {
        return Err(Refusal::NoSample(number as usize));
    };
    let stsc = track.stsc;
    let chunks = track.stco;
    let Spot::At { chunk, within } = seek::chunk_at(file, tables::groups(stsc, chunks.count), k)
    else {
        return Err(Refusal::NoSample(number as usize));
    };
    let first = tables::offset_at(file, chunks, chunk);
    let gone = seek::span(file, sizes, k - within, k);
    told(file, track, k, number, first, gone, size, sum, value)
}
