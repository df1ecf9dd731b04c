#![tactic(auto, unfolding(numbers::specs::Field::when, numbers::specs::Field::field))]
// What an audio track tells of itself, from the bytes of its trak: its first sample entry is an mp4a, whose esds holds the
// configuration. Missing for a box that is not there, with mp4a where the entry is another; else what the readers on the
// way refuse, at a position that is counted from the first byte of what each reads; Value for a number that is not known.
ghost use Rattle.std.specs.Prelude.{◌≡◌};
ghost use Rattle.track_audio.specs.TrackAudio.{part_of, entered_of, stream_of, config_of, profile_of, rate_of, frequency_of, channels_of, average_of, bitrate_of};

use audio::{frequencies, objects};
use numbers::Refusal;
use places::kinds;

// The esds in the first sample entry; no bytes where there is none.
#[tactic(auto, unfolding(numbers::specs::Field::when, numbers::specs::Field::field, crate::specs::TrackAudio::part_of))]
fn part(trak: &[u8]) -> &[u8]
    ensures { result.now ≡ part_of trak.now }
{
    let entry = trak::entry(trak);
    mp4a::esds(entry)
}

// What is told of it, where the entry is an mp4a.
#[tactic(auto, unfolding(numbers::specs::Field::when, numbers::specs::Field::field, crate::specs::TrackAudio::entered_of))]
fn entered(trak: &[u8]) -> Result<(esds::Esds, esds::Places), Refusal>
    ensures { result ≡ entered_of trak.now }
{
    mp4a::read(trak::entry(trak))?;
    let found = part(trak);
    if found.len() == 0 {
        return Err(Refusal::Missing(kinds::ESDS));
    }
    esds::read(found)
}

// The same for any entry.
#[tactic(auto, unfolding(numbers::specs::Field::when, numbers::specs::Field::field, crate::specs::TrackAudio::stream_of))]
fn stream(trak: &[u8]) -> Result<(esds::Esds, esds::Places), Refusal>
    ensures { result ≡ stream_of trak.now }
{
    let letters = trak_boxes::entry_kind(trak)?;
    if letters == kinds::MP4A {
        return entered(trak);
    }
    Err(Refusal::Missing(kinds::MP4A))
}

// The AudioSpecificConfig in the esds.
#[tactic(auto, unfolding(numbers::specs::Field::when, numbers::specs::Field::field, crate::specs::TrackAudio::config_of))]
fn config(trak: &[u8]) -> Result<asc::Config, Refusal>
    ensures { result ≡ config_of trak.now }
{
    stream(trak)?;
    let found = part(trak);
    let info = esds_parts::info(found);
    asc::read(info)
}

// The audio object type.
pub fn profile(trak: &[u8]) -> Result<u8, Refusal>
    ensures { result ≡ profile_of trak.now }
{
    let m = config(trak)?;
    objects::object_type(m.object_type)
}

// The frequency of an index; 15 says that the frequency itself is told.
fn rate(index: u8, told: u32) -> Result<u32, Refusal>
    ensures { result ≡ rate_of index told }
{
    if index == 15 {
        return Ok(told);
    }
    frequencies::frequency(index)
}

// The samples to a second.
pub fn frequency(trak: &[u8]) -> Result<u32, Refusal>
    ensures { result ≡ frequency_of trak.now }
{
    let m = config(trak)?;
    rate(m.frequency_index, m.frequency)
}

// The channel configuration.
pub fn channels(trak: &[u8]) -> Result<u8, Refusal>
    ensures { result ≡ channels_of trak.now }
{
    let m = config(trak)?;
    audio::channels::configuration(m.channels)
}

fn average(decoder: Option<decoderconfig::Config>) -> u32
    ensures { result ≡ average_of decoder }
{
    match decoder {
        None => 0,
        Some(config) => config.avg_bitrate,
    }
}

// The average bits to a second that the esds tells; 0 where it tells none.
pub fn bitrate(trak: &[u8]) -> Result<u32, Refusal>
    ensures { result ≡ bitrate_of trak.now }
{
    let (m, _) = stream(trak)?;
    let decoder = m.decoder;
    let bits = average(decoder);
    Ok(bits)
}
