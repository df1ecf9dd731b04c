#![tactic(auto, unfolding(numbers::specs::Field::when, numbers::specs::Field::field))]
// The media header (ISO/IEC 14496-12, 8.4.2). Times and duration are wider in version 1; a timescale of 0 is 8.
ghost use Rattle.std.specs.Prelude.{◌≡◌};
ghost use Rattle.put.specs.Put.{wrote};
ghost use Rattle.mdhd.specs.Mdhd.{mdhd_of, mdhd_in};

use layout::Field;
use numbers::Refusal;

#[derive(Clone, Copy)]
pub struct Mdhd {
    pub version: u8,
    pub flags: u32,
    pub creation_time: u64,
    pub modification_time: u64,
    pub timescale: u32,
    pub duration: u64,
    pub language: u16,
}

pub const KIND: u32 = 0x6d646864;

pub const ROW: [Field; 8] = [
    Field::Version(0, 1),
    Field::Flags,
    Field::Wide(4, 8),
    Field::Wide(4, 8),
    Field::Least(4, 1),
    Field::Wide(4, 8),
    Field::Number(2),
    Field::Reserved(2, 0),
];

pub fn read(part: &[u8]) -> Result<Mdhd, Refusal>
    ensures { result ≡ mdhd_of part.now }
{
    let got = short::read::by(part, KIND, ROW)?;
    let v = got.values;
    Ok(Mdhd {
        version: v[0] as u8,
        flags: v[1] as u32,
        creation_time: v[2],
        modification_time: v[3],
        timescale: v[4] as u32,
        duration: v[5],
        language: v[6] as u16,
    })
}

pub fn write(mdhd: Mdhd, out: &mut [u8]) -> Result<usize, Refusal>
    ensures { wrote result out.new ≡ mdhd_in mdhd out.old }
{
    let v = [
        mdhd.version as u64,
        mdhd.flags as u64,
        mdhd.creation_time,
        mdhd.modification_time,
        mdhd.timescale as u64,
        mdhd.duration,
        mdhd.language as u64,
        0,
    ];
    short::write::plain(out, KIND, ROW, v)
}
