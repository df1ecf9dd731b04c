#![tactic(auto, unfolding(numbers::specs::Field::when, numbers::specs::Field::field))]
// What a track that is being written has so far, as a record that is lent and changed in place.
ghost use Rattle.std.specs.Prelude.{◌≡◌};
ghost use Rattle.record.specs.Growth.{added_to, answer_of, afterwards, outcome, outcome_of, whole_of, all_to};

use numbers::Refusal;
use samples::{LAST, TIME_BOUND};

// The most samples of a track.
const SAMPLES: u32 = 65536;

// How many samples there are, their bytes, and how long they last together: the time of the next one.
#[derive(Clone, Copy)]
pub struct Track {
    pub samples: u32,
    pub bytes: u64,
    pub duration: u64,
}

// The record with a sample more.
pub fn added(t: Track, size: u32, duration: u32) -> Result<Track, Refusal>
    ensures { result ≡ added_to t size duration }
{
    let samples = t.samples;
    let bytes = t.bytes;
    let time = t.duration;
    if SAMPLES <= samples {
        return Err(Refusal::Limit(0));
    }
    if TIME_BOUND <= time {
        return Err(Refusal::Overflow);
    }
    if LAST - (size as u64) < bytes {
        return Err(Refusal::Overflow);
    }
    Ok(Track {
        samples: samples + 1,
        bytes: bytes + (size as u64),
        duration: time + (duration as u64),
    })
}

// What is said of a lent record, where that was told.
fn answer(told: Result<Track, Refusal>) -> Result<(), Refusal>
    ensures { result ≡ answer_of told }
{
    told?;
    Ok(())
}

// What it is from then on.
fn after(t: Track, told: Result<Track, Refusal>) -> Track
    ensures { result ≡ afterwards t told }
{
    match told {
        Ok(n) => n,
        Err(_) => t,
    }
}

// The same in place: where it is refused, the record is as it was.
pub fn add(track: &mut Track, size: u32, duration: u32) -> Result<(), Refusal>
    ensures { outcome result track.new ≡ outcome_of track.old size duration }
{
    let told = added(*track, size, duration);
    *track = after(*track, told);
    answer(told)
}

// The record, where a lent one is said to have its sample.
fn whole(said: Result<(), Refusal>, t: Track) -> Result<Track, Refusal>
    ensures { result ≡ whole_of said t }
{
    let () = said?;
    Ok(t)
}

// By value again, over a local that is lent: whoever calls this lends nothing.
fn grown(t: Track, size: u32, duration: u32) -> Result<Track, Refusal>
    ensures { result ≡ added_to t size duration }
{
    let mut next = t;
    let said = add(&mut next, size, duration);
    whole(said, next)
}

// The record with all samples of a column of sizes and one of durations, as many as both have; or why it has none of them.
pub fn all(t: Track, sizes: &[u32], durations: &[u32]) -> Result<Track, Refusal>
    ensures { result ≡ all_to t sizes.now durations.now }
{
    let mut sum = t;
    let mut i = 0;
    while i < sizes.len() {
        if durations.len() <= i {
            return Ok(sum);
        }
        match grown(sum, sizes[i], durations[i]) {
            Ok(n) => sum = n,
            Err(q) => return Err(q),
        }
        i += 1;
    }
    Ok(sum)
}
