#![tactic(auto, unfolding(numbers::specs::Field::when, numbers::specs::Field::field))]
// The decode time of a track fragment (ISO/IEC 14496-12, 8.8.12).
ghost use Rattle.std.specs.Prelude.{◌≡◌};
ghost use Rattle.put.specs.Put.{wrote};
ghost use Rattle.tfdt.specs.Tfdt.{tfdt_of, tfdt_in};

use layout::Field;
use numbers::Refusal;

#[derive(Clone, Copy)]
pub struct Tfdt {
    pub version: u8,
    pub flags: u32,
    pub base_media_decode_time: u64,
}

pub const KIND: u32 = 0x74666474;

pub const ROW: [Field; 8] = [
    Field::Version(0, 1),
    Field::Flags,
    Field::Wide(4, 8),
    Field::Nothing,
    Field::Nothing,
    Field::Nothing,
    Field::Nothing,
    Field::Nothing,
];

pub fn read(part: &[u8]) -> Result<Tfdt, Refusal>
    ensures { result ≡ tfdt_of part.now }
{
    let got = short::read::by(part, KIND, ROW)?;
    let v = got.values;
    Ok(Tfdt {
        version: v[0] as u8,
        flags: v[1] as u32,
        base_media_decode_time: v[2],
    })
}

pub fn write(tfdt: Tfdt, out: &mut [u8]) -> Result<usize, Refusal>
    ensures { wrote result out.new ≡ tfdt_in tfdt out.old }
{
    let v = [
        tfdt.version as u64,
        tfdt.flags as u64,
        tfdt.base_media_decode_time,
        0,
        0,
        0,
        0,
        0,
    ];
    short::write::plain(out, KIND, ROW, v)
}
