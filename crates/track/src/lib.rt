#![tactic(auto, unfolding(numbers::specs::Field::when, numbers::specs::Field::field))]
// What a track tells of itself, from the bytes of its trak: Missing where a box is not there, else what the box's own
// reader refuses, at a position that is counted from that box's first byte; Value for letters that are not known.
ghost use Rattle.std.specs.Prelude.{◌≡◌};
ghost use Rattle.track.specs.Track.{number_of, timescale_of, language_of, kind_of, media_of, samples_of};

use language::Letters;
use media::{entries, handlers};
use numbers::Refusal;

// The track's number, in its tkhd.
pub fn number(trak: &[u8]) -> Result<u32, Refusal>
    ensures { result ≡ number_of trak.now }
{
    let m = trak_boxes::tkhd(trak)?;
    Ok(m.track_id)
}

// How many units of time are a second, in its mdhd.
pub fn timescale(trak: &[u8]) -> Result<u32, Refusal>
    ensures { result ≡ timescale_of trak.now }
{
    Ok(trak_boxes::mdhd(trak)?.timescale)
}

// The three letters of its language, in its mdhd.
pub fn language(trak: &[u8]) -> Result<Letters, Refusal>
    ensures { result ≡ language_of trak.now }
{
    let m = trak_boxes::mdhd(trak)?;
    let letters = language::of_code(m.language);
    Ok(letters)
}

// Video, audio or subtitle, by the handler in its hdlr.
pub fn kind(trak: &[u8]) -> Result<media::handlers::Kind, Refusal>
    ensures { result ≡ kind_of trak.now }
{
    let m = trak_boxes::hdlr(trak)?;
    handlers::kind_of(m.handler_type)
}

// How its samples are coded, by the type of its first sample entry.
pub fn media(trak: &[u8]) -> Result<media::entries::Media, Refusal>
    ensures { result ≡ media_of trak.now }
{
    let letters = trak_boxes::entry_kind(trak)?;
    entries::media_of(letters)
}

// How many samples its stsz counts.
pub fn samples(trak: &[u8]) -> Result<u32, Refusal>
    ensures { result ≡ samples_of trak.now }
{
    let (m, _) = trak_boxes::stsz(trak)?;
    Ok(m.count)
}
