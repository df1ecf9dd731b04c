#![tactic(auto, unfolding(numbers::specs::Field::when, numbers::specs::Field::field))]
// The samples of a track as its tables tell them: how many there are, and all of them as records in a lent buffer.
ghost use Rattle.std.specs.Prelude.{◌≡◌, true};
ghost use Rattle.tables.specs.Tables.{chunks};
ghost use Rattle.tables.specs.Samples.{samples_of};
ghost use Rattle.samples.specs.Lists.{all_held};
ghost use Rattle.samples.specs.Records.{output, list_of};
ghost use Rattle.lists.specs.Count.{count_of, Filled, all_low};

use lanes::Taken;
use numbers::Refusal;
use tables::{Chunks, Track};

// The sizes of as many samples as this come to less than 2^63, and so do their durations.
const MANY: u32 = 0x8000_0000;

const HALF: u64 = 0x8000_0000_0000_0000;

// The samples one by one: counted, and put into the buffer as far as it has room. One loop serves the listing and the
// count, so that the lane's step is there once, inside of it.
fn fill(file: &[u8], track: Track, out: &mut [u64]) -> Option<usize>
    ensures count { result ≡ count_of (samples_of file.now track) }
    ensures records { Filled (samples_of file.now track) out.old out.new }
{
    let mut lane = lanes::start();
    let mut i: usize = 0;
    loop {
        match lanes::next(file, track, lane) {
            Taken::End => {
                return Some(i);
            }
            Taken::Over => {
                return None;
            }
            Taken::One {
                sample,
                lane: after,
            } => {
                samples::put(out, i, sample);
                i += 1;
                lane = after;
            }
        }
    }
}

// The samples counted one by one, by a buffer that has room for none.
fn walk(file: &[u8], track: Track) -> Option<usize>
    ensures { result ≡ count_of (samples_of file.now track) }
{
    let mut none = [0u64; 1];
    fill(file, track, &mut none)
}

// Whether every chunk begins below 2^63.
fn all_low(file: &[u8], t: Chunks) -> bool
    ensures { result ≡ all_low (chunks file.now t) }
{
    let mut i: u32 = 0;
    while i < t.count {
        let at = tables::offset_at(file, t, i);
        if HALF <= at {
            return false;
        }
        i += 1;
    }
    true
}

// Where there are at most 2^31 samples, and every chunk begins below 2^63, each of them fits, since sizes and durations
// have 32 bits. The offsets of stco have 32 bits too.
fn surely_held(file: &[u8], track: Track) -> bool
    ensures { result ≡ true → all_held (samples_of file.now track) ≡ true }
{
    let sizes = track.stsz;
    if MANY < sizes.count {
        return false;
    }
    let places = track.stco;
    if places.wide {
        return all_low(file, places);
    }
    true
}

// How many samples a track has, where each of them fits: by the tables' entries alone, in all but odd files.
pub fn count(file: &[u8], track: Track) -> Option<usize>
    ensures { result ≡ count_of (samples_of file.now track) }
{
    if surely_held(file, track) {
        return Some(lookup::count(file, track) as usize);
    }
    walk(file, track)
}

// Every sample as a record, one behind the other; or the buffer as it was, and Overflow where a sample does not fit, then
// TooSmall where the records have no room.
pub fn list(file: &[u8], track: Track, out: &mut [u64]) -> Result<usize, Refusal>
    ensures { output result out.new ≡ list_of (samples_of file.now track) out.old }
{
    let Some(n) = count(file, track) else {
        return Err(Refusal::Overflow);
    };
    if out.len() / samples::RECORD < n {
        return Err(Refusal::TooSmall(n));
    }
    fill(file, track, out);
    Ok(n)
}
