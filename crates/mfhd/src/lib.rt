#![tactic(auto, unfolding(numbers::specs::Field::when, numbers::specs::Field::field))]
// The movie fragment header (ISO/IEC 14496-12, 8.8.5).
ghost use Rattle.std.specs.Prelude.{◌≡◌};
ghost use Rattle.put.specs.Put.{wrote};
ghost use Rattle.mfhd.specs.Mfhd.{mfhd_of, mfhd_in};

use layout::Field;
use numbers::Refusal;

#[derive(Clone, Copy)]
pub struct Mfhd {
    pub version: u8,
    pub flags: u32,
    pub sequence_number: u32,
}

pub const KIND: u32 = 0x6d666864;

pub const ROW: [Field; 8] = [
    Field::Version(0, 0),
    Field::Flags,
    Field::Number(4),
    Field::Nothing,
    Field::Nothing,
    Field::Nothing,
    Field::Nothing,
    Field::Nothing,
];

pub fn read(part: &[u8]) -> Result<Mfhd, Refusal>
    ensures { result ≡ mfhd_of part.now }
{
    let got = short::read::by(part, KIND, ROW)?;
    let v = got.values;
    Ok(Mfhd {
        version: v[0] as u8,
        flags: v[1] as u32,
        sequence_number: v[2] as u32,
    })
}

pub fn write(mfhd: Mfhd, out: &mut [u8]) -> Result<usize, Refusal>
    ensures { wrote result out.new ≡ mfhd_in mfhd out.old }
{
    let v = [
        mfhd.version as u64,
        mfhd.flags as u64,
        mfhd.sequence_number as u64,
        0,
        0,
        0,
        0,
        0,
    ];
    short::write::plain(out, KIND, ROW, v)
}
