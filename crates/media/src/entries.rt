// The kind of coded media, by the type of a sample entry.
ghost use Rattle.std.specs.Prelude.{◌≡◌};
ghost use Rattle.media.specs.Entries.{media_of, entry_of};

use numbers::Refusal;

#[derive(Clone, Copy)]
pub enum Media {
    H264,
    H265,
    VP9,
    AAC,
    TTXT,
}

// 'avc1', 'hev1', 'vp09', 'mp4a' and 'tx3g'.
const AVC1: u32 = 0x6176_6331;

const HEV1: u32 = 0x6865_7631;

const VP09: u32 = 0x7670_3039;

const MP4A: u32 = 0x6d70_3461;

const TX3G: u32 = 0x7478_3367;

pub fn media_of(entry: u32) -> Result<Media, Refusal>
    ensures { result ≡ media_of entry }
{
    if entry == AVC1 {
        return Ok(Media::H264);
    }
    if entry == HEV1 {
        return Ok(Media::H265);
    }
    if entry == VP09 {
        return Ok(Media::VP9);
    }
    if entry == MP4A {
        return Ok(Media::AAC);
    }
    if entry == TX3G {
        return Ok(Media::TTXT);
    }
    Err(Refusal::Value(0))
}

pub fn entry_of(media: Media) -> u32
    ensures { result ≡ entry_of media }
{
    match media {
        Media::H264 => AVC1,
        Media::H265 => HEV1,
        Media::VP9 => VP09,
        Media::AAC => MP4A,
        Media::TTXT => TX3G,
    }
}
