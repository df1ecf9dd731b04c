#![tactic(auto, unfolding(numbers::specs::Field::when, numbers::specs::Field::field))]
// How large a track is, from the bytes of its trak: its samples' bytes together, its bits to a second, and its summary.
// Missing for a box that is not there, else what the box's own reader refuses, at a position that is counted from that box's
// first byte; Overflow where a number does not fit.
ghost use Rattle.std.specs.Prelude.{◌≡◌, ◌*◌};
ghost use Rattle.track_size.specs.TrackSize.{total_of, bytes_of, seconds_of, rate_of, measured_of, told_of, bitrate_of, summary_of};

use numbers::Refusal;
use places::kinds;

// The first `count` of the sizes that are listed at `place`, together.
#[tactic(auto, unfolding(numbers::specs::Field::when, numbers::specs::Field::field, crate::specs::TrackSize::total_of))]
fn total(part: &[u8], place: usize, count: u32) -> u64
    ensures { result ≡ total_of count part.now place }
{
    let mut sum = 0u64;
    let mut i = 0u32;
    while i < count {
        let size = words::four(part, place, (i as usize) * 4);
        sum = sum + (size as u64);
        i = i + 1;
    }
    sum
}

// The same of so many sizes in common.
fn alike(size: u32, count: u32) -> u64
    ensures { result ≡ size * count }
{
    (size as u64) * (count as u64)
}

// The bytes of all samples that the stsz counts.
#[tactic(auto, unfolding(numbers::specs::Field::when, numbers::specs::Field::field, crate::specs::TrackSize::bytes_of))]
pub fn bytes(trak: &[u8]) -> Result<u64, Refusal>
    ensures { result ≡ bytes_of trak.now }
{
    let (m, place) = trak_boxes::stsz(trak)?;
    let common = m.sample_size;
    let count = m.count;
    if common == 0 {
        let listed = trak::stsz(trak);
        let sum = total(listed, place, count);
        return Ok(sum);
    }
    let sum = alike(common, count);
    Ok(sum)
}

fn seconds(duration: u64, timescale: u32) -> u64
    ensures { result ≡ seconds_of duration timescale }
{
    if timescale == 0 {
        return 0;
    }
    duration / (timescale as u64)
}

// The bits to a second, of so many bytes in whole seconds; 0 where these are 0.
fn rate(bytes: u64, seconds: u64) -> Result<u32, Refusal>
    ensures { result ≡ rate_of bytes seconds }
{
    if seconds == 0 {
        return Ok(0);
    }
    if 0x1fff_ffff_ffff_ffff < bytes {
        return Err(Refusal::Overflow);
    }
    let bits = bytes * 8 / seconds;
    if 0xffff_ffff < bits {
        return Err(Refusal::Overflow);
    }
    Ok(bits as u32)
}

// The bits to a second by the sizes and the duration.
#[tactic(auto, unfolding(numbers::specs::Field::when, numbers::specs::Field::field, crate::specs::TrackSize::measured_of))]
fn measured(trak: &[u8]) -> Result<u32, Refusal>
    ensures { result ≡ measured_of trak.now }
{
    let m = trak_boxes::mdhd(trak)?;
    let duration = m.duration;
    let timescale = m.timescale;
    let n = bytes(trak)?;
    rate(n, seconds(duration, timescale))
}

// What an audio track tells; 0 where it has no esds that tells it.
fn told(answer: Result<u32, Refusal>) -> Result<u32, Refusal>
    ensures { result ≡ told_of answer }
{
    match answer {
        Ok(n) => Ok(n),
        Err(Refusal::Missing(_)) => Ok(0),
        Err(q) => Err(q),
    }
}

// The bits to a second: of an mp4a the average that its esds tells, of other tracks by the sizes and the duration.
pub fn bitrate(trak: &[u8]) -> Result<u32, Refusal>
    ensures { result ≡ bitrate_of trak.now }
{
    let letters = trak_boxes::entry_kind(trak)?;
    if letters == kinds::MP4A {
        let answer = track_audio::bitrate(trak);
        return told(answer);
    }
    measured(trak)
}

// The summary: by the tkhd's width and height, the mdhd's duration and timescale, and the stsz's count.
pub fn summary(trak: &[u8]) -> Result<summary::Summary, Refusal>
    ensures { result ≡ summary_of trak.now }
{
    let head = trak_boxes::tkhd(trak)?;
    let width = head.width;
    let height = head.height;
    let m = trak_boxes::mdhd(trak)?;
    let duration = m.duration;
    let timescale = m.timescale;
    let (sizes, _) = trak_boxes::stsz(trak)?;
    summary::of(sizes.count, duration, timescale, width, height)
}
