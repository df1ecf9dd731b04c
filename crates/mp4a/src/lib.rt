#![tactic(auto, unfolding(numbers::specs::Field::when, numbers::specs::Field::field))]
// The sample entry of MPEG-4 audio (AudioSampleEntry of version 0, ISO/IEC 14496-12, 12.2.3; MP4AudioSampleEntry,
// 14496-14, 5.6): an index, three numbers of the sound, and boxes, which are the rest of the box.
ghost use Rattle.std.specs.Prelude.{◌≡◌};
ghost use Rattle.put.specs.Put.{wrote};
ghost use Rattle.mp4a.specs.Mp4a.{mp4a_of, children_of, esds_of, mp4a_in};

use layout::Field;
use numbers::Refusal;

// The rate has 16 bits before the point, and 16 behind it.
#[derive(Clone, Copy)]
pub struct Mp4a {
    pub data_reference_index: u16,
    pub channelcount: u16,
    pub samplesize: u16,
    pub samplerate: u32,
}

pub const KIND: u32 = 0x6d703461;

pub const ROW: [Field; 8] = [
    Field::Reserved(6, 0),
    Field::Number(2),
    Field::Reserved(8, 0),
    Field::Number(2),
    Field::Number(2),
    Field::Reserved(2, 0),
    Field::Reserved(2, 0),
    Field::Number(4),
];

pub fn read(part: &[u8]) -> Result<Mp4a, Refusal>
    ensures { result ≡ mp4a_of part.now }
{
    let got = short::read::by(part, KIND, ROW)?;
    let v = got.values;
    Ok(Mp4a {
        data_reference_index: v[0] as u16,
        channelcount: v[1] as u16,
        samplesize: v[2] as u16,
        samplerate: v[3] as u32,
    })
}

// The boxes behind the numbers, as the part where they lie; no bytes where the box is refused.
pub fn children(part: &[u8]) -> &[u8]
    ensures { result.now ≡ children_of part.now }
{
    short::read::rest(part, KIND, ROW)
}

// The first esds among them, as the part of the entry where it lies; no bytes where there is none, or where a fault comes
// before it.
pub fn esds(part: &[u8]) -> &[u8]
    ensures { result.now ≡ esds_of part.now }
{
    let boxes = short::read::rest(part, KIND, ROW);
    boxparts::first_box(boxes, 0x65736473)
}

pub fn write(mp4a: Mp4a, children: &[u8], out: &mut [u8]) -> Result<usize, Refusal>
    ensures { wrote result out.new ≡ mp4a_in mp4a children.now out.old }
{
    let v = [
        mp4a.data_reference_index as u64,
        mp4a.channelcount as u64,
        mp4a.samplesize as u64,
        mp4a.samplerate as u64,
        0,
        0,
        0,
        0,
    ];
    short::write::by(out, KIND, ROW, v, children)
}
