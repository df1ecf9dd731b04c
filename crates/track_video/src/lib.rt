#![tactic(auto, unfolding(numbers::specs::Field::when, numbers::specs::Field::field))]
// What an H.264 track tells of itself, from the bytes of its trak: its first sample entry is an avc1, whose avcC holds the
// configuration. Missing for a box that is not there, with avc1 where the entry is another; else what the readers on the
// way refuse, at a position that is counted from the first byte of what each reads; Value for a profile that is not known,
// NoSample for a parameter set that is not there.
ghost use Rattle.std.specs.Prelude.{◌≡◌};
ghost use Rattle.track_video.specs.TrackVideo.{part_of, entered_of, config_of, profile_of, sps_of, pps_of, has_set, sps_fault, pps_fault};

use numbers::Refusal;
use places::kinds;

// The avcC in the first sample entry; no bytes where there is none.
#[tactic(auto, unfolding(numbers::specs::Field::when, numbers::specs::Field::field, crate::specs::TrackVideo::part_of))]
fn part(trak: &[u8]) -> &[u8]
    ensures { result.now ≡ part_of trak.now }
{
    let entry = trak::entry(trak);
    avc1::avcc(entry)
}

// What is told of it, where the entry is an avc1.
#[tactic(auto, unfolding(numbers::specs::Field::when, numbers::specs::Field::field, crate::specs::TrackVideo::entered_of))]
fn entered(trak: &[u8]) -> Result<(avcc::Avcc, avcc::Places), Refusal>
    ensures { result ≡ entered_of trak.now }
{
    avc1::read(trak::entry(trak))?;
    let found = part(trak);
    if found.len() == 0 {
        return Err(Refusal::Missing(kinds::AVCC));
    }
    avcc::read(found)
}

// The same for any entry.
#[tactic(auto, unfolding(numbers::specs::Field::when, numbers::specs::Field::field, crate::specs::TrackVideo::config_of))]
fn config(trak: &[u8]) -> Result<(avcc::Avcc, avcc::Places), Refusal>
    ensures { result ≡ config_of trak.now }
{
    let letters = trak_boxes::entry_kind(trak)?;
    if letters == kinds::AVC1 {
        return entered(trak);
    }
    Err(Refusal::Missing(kinds::AVC1))
}

// The profile of the stream.
pub fn profile(trak: &[u8]) -> Result<profiles::Profile, Refusal>
    ensures { result ≡ profile_of trak.now }
{
    let (m, _) = config(trak)?;
    profiles::profile_of(m.profile, m.compatibility)
}

// The i-th sequence parameter set, counted from 0, as the part of the trak where it lies; no bytes where there is none,
// and then `sps_fault` tells why.
pub fn sps(trak: &[u8], i: u8) -> &[u8]
    ensures { result.now ≡ sps_of i trak.now }
{
    let found = part(trak);
    avcc_parts::sps(found, i)
}

// The i-th picture parameter set, in the same way.
pub fn pps(trak: &[u8], i: u8) -> &[u8]
    ensures { result.now ≡ pps_of i trak.now }
{
    let found = part(trak);
    avcc_parts::pps(found, i)
}

// Whether there is an i-th of so many sets.
fn has_set(i: u8, count: u8) -> Result<(), Refusal>
    ensures { result ≡ has_set i count }
{
    if i < count {
        return Ok(());
    }
    Err(Refusal::NoSample(i as usize))
}

// Whether there is an i-th sequence parameter set, or why there is none.
pub fn sps_fault(trak: &[u8], i: u8) -> Result<(), Refusal>
    ensures { result ≡ sps_fault i trak.now }
{
    let (m, _) = config(trak)?;
    has_set(i, m.sps)
}

// Whether there is an i-th picture parameter set, or why there is none.
pub fn pps_fault(trak: &[u8], i: u8) -> Result<(), Refusal>
    ensures { result ≡ pps_fault i trak.now }
{
    let (m, _) = config(trak)?;
    has_set(i, m.pps)
}
