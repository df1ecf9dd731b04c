#![tactic(auto, unfolding(numbers::specs::Field::when, numbers::specs::Field::field))]
// The defaults of a track in fragments (ISO/IEC 14496-12, 8.8.3). A track number of 0 is 8 (A18).
ghost use Rattle.std.specs.Prelude.{◌≡◌};
ghost use Rattle.put.specs.Put.{wrote};
ghost use Rattle.trex.specs.Trex.{trex_of, trex_in};

use layout::Field;
use numbers::Refusal;

#[derive(Clone, Copy)]
pub struct Trex {
    pub version: u8,
    pub flags: u32,
    pub track_id: u32,
    pub default_sample_description_index: u32,
    pub default_sample_duration: u32,
    pub default_sample_size: u32,
    pub default_sample_flags: u32,
}

pub const KIND: u32 = 0x74726578;

pub const ROW: [Field; 8] = [
    Field::Version(0, 0),
    Field::Flags,
    Field::Least(4, 1),
    Field::Number(4),
    Field::Number(4),
    Field::Number(4),
    Field::Number(4),
    Field::Nothing,
];

pub fn read(part: &[u8]) -> Result<Trex, Refusal>
    ensures { result ≡ trex_of part.now }
{
    let got = short::read::by(part, KIND, ROW)?;
    let v = got.values;
    Ok(Trex {
        version: v[0] as u8,
        flags: v[1] as u32,
        track_id: v[2] as u32,
        default_sample_description_index: v[3] as u32,
        default_sample_duration: v[4] as u32,
        default_sample_size: v[5] as u32,
        default_sample_flags: v[6] as u32,
    })
}

pub fn write(trex: Trex, out: &mut [u8]) -> Result<usize, Refusal>
    ensures { wrote result out.new ≡ trex_in trex out.old }
{
    let v = [
        trex.version as u64,
        trex.flags as u64,
        trex.track_id as u64,
        trex.default_sample_description_index as u64,
        trex.default_sample_duration as u64,
        trex.default_sample_size as u64,
        trex.default_sample_flags as u64,
        0,
    ];
    short::write::plain(out, KIND, ROW, v)
}
