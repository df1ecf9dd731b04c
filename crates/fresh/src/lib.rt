#![tactic(auto, unfolding(numbers::specs::Field::when, numbers::specs::Field::field))]
// The records of new sample entries and of the boxes that they hold, for a writer that has no file to take them from.
ghost use Rattle.std.specs.Prelude.{◌≡◌};
ghost use Rattle.fresh.specs.Fresh.{fresh_visual, fresh_avcc, fresh_vpcc, fresh_tx3g, rate_of, fresh_mp4a, fresh_esds};

use avcc::Avcc;
use decoderconfig::Config;
use esds::Esds;
use esfields::Stream;
use mp4a::Mp4a;
use numbers::Refusal;
use tx3g::Tx3g;
use visual::Visual;
use vpcc::Vpcc;

// The record of a new visual entry: its samples are in the first data reference, and the rest is what the standard gives where a
// writer has nothing else to say. No compressor is named.
pub fn visual(width: u16, height: u16) -> Visual
    ensures { result ≡ fresh_visual width height }
{
    Visual {
        data_reference_index: 1,
        width,
        height,
        horizresolution: 0x0048_0000,
        vertresolution: 0x0048_0000,
        frame_count: 1,
        name0: 0,
        name1: 0,
        name2: 0,
        name3: 0,
        depth: 0x0018,
    }
}

// The record of a new avcC, of one set of each kind, with lengths of four bytes in a sample. The profile, its compatibility
// and the level stand in the sequence parameter set behind its first byte; Unwritable where it ends before.
pub fn avcc(sps: &[u8]) -> Result<Avcc, Refusal>
    ensures { result ≡ fresh_avcc sps.now }
{
    if sps.len() < 4 {
        return Err(Refusal::Unwritable);
    }
    Ok(Avcc {
        profile: sps[1],
        compatibility: sps[2],
        level: sps[3],
        length_size: 3,
        sps: 1,
        pps: 1,
    })
}

// The record of a new VP9 track: profile 0, level 3.1, 8 bits of 4:2:0 in the narrow range. Nothing is known of its
// colours: 2.
pub fn vpcc() -> Vpcc
    ensures { result ≡ fresh_vpcc }
{
    Vpcc {
        version: 1,
        flags: 0,
        profile: 0,
        level: 31,
        sampling: 0x80,
        colour_primaries: 2,
        transfer_characteristics: 2,
        matrix_coefficients: 2,
        codec_initialization_data_size: 0,
    }
}

// The record of a new text entry: its samples are in the first data reference, the text is centred at the bottom (-1), white on
// black, in 16 points of the font 1.
pub fn tx3g() -> Tx3g
    ensures { result ≡ fresh_tx3g }
{
    Tx3g {
        data_reference_index: 1,
        display_flags: 0,
        horizontal_justification: 1,
        vertical_justification: 0xff,
        background_red: 0,
        background_green: 0,
        background_blue: 0,
        background_alpha: 255,
        top: 0,
        left: 0,
        bottom: 0,
        right: 0,
        start_char: 0,
        end_char: 0,
        font_id: 1,
        face_style_flags: 0,
        font_size: 16,
        text_red: 255,
        text_green: 255,
        text_blue: 255,
        text_alpha: 255,
    }
}

// The rate of a whole number of samples each second. One that has more than 16 bits is Unwritable: none of its bits
// is dropped.
pub fn rate(frequency: u32) -> Result<u32, Refusal>
    ensures { result ≡ rate_of frequency }
{
    if 0xffff < frequency {
        return Err(Refusal::Unwritable);
    }
    let whole = frequency as u16;
    Ok((whole as u32) * 0x1_0000)
}

// The record of a new sound entry: its samples are in the first data reference, and have 16 bits. Unwritable where the
// entry cannot say the frequency.
pub fn mp4a(channels: u16, frequency: u32) -> Result<Mp4a, Refusal>
    ensures { result ≡ fresh_mp4a channels frequency }
{
    let samplerate = rate(frequency)?;
    Ok(Mp4a {
        data_reference_index: 1,
        channelcount: channels,
        samplesize: 16,
        samplerate,
    })
}

// The record of a new AAC stream: MPEG-4 audio (0x40) that goes downwards, with an AudioSpecificConfig (`asc::write`) as its
// info, and with an SLConfig. In a file its number is 0, and the SLConfig's content 02 (14496-14, 3.1.2).
pub fn esds(bitrate: u32) -> Esds
    ensures { result ≡ fresh_esds bitrate }
{
    Esds {
        flags: 0,
        stream: Stream {
            id: 0,
            flags: 0,
            depends_on: 0,
            ocr_id: 0,
        },
        decoder: Some(Config {
            object_type_indication: 0x40,
            stream: 0x15,
            buffer_size: 0,
            max_bitrate: bitrate,
            avg_bitrate: bitrate,
            has_info: true,
        }),
        has_sl: true,
    }
}
