#![tactic(auto, unfolding(numbers::specs::Field::when, numbers::specs::Field::field))]
// How a VP8 or VP9 track is coded (VP Codec ISO Media File Format Binding, 'vpcC', version 1): profile, level, bit depth,
// chroma subsampling and range in one byte, three codes of its colours, and the data that the codec begins with: a size in
// bytes, and as many bytes.
ghost use Rattle.std.specs.Prelude.{◌≡◌};
ghost use Rattle.vpcc.specs.Vpcc.{vpcc_of, initialization_of};

use layout::Field;
use numbers::Refusal;

#[derive(Clone, Copy)]
pub struct Vpcc {
    pub version: u8,
    pub flags: u32,
    pub profile: u8,
    pub level: u8,
    pub sampling: u8,
    pub colour_primaries: u8,
    pub transfer_characteristics: u8,
    pub matrix_coefficients: u8,
    pub codec_initialization_data_size: u16,
}

pub const KIND: u32 = 0x76706343;

pub const ROW: [Field; 24] = [
    Field::Version(1, 1),
    Field::Flags,
    Field::Number(1),
    Field::Number(1),
    Field::Number(1),
    Field::Number(1),
    Field::Number(1),
    Field::Number(1),
    Field::Number(2),
    Field::Nothing,
    Field::Nothing,
    Field::Nothing,
    Field::Nothing,
    Field::Nothing,
    Field::Nothing,
    Field::Nothing,
    Field::Nothing,
    Field::Nothing,
    Field::Nothing,
    Field::Nothing,
    Field::Nothing,
    Field::Nothing,
    Field::Nothing,
    Field::Nothing,
];

// The box, and where the initialization data begin.
pub fn read(part: &[u8]) -> Result<(Vpcc, usize), Refusal>
    ensures { result ≡ vpcc_of part.now }
{
    let got = layout::read::by(part, KIND, ROW)?;
    let v = got.values;
    let place = got.place;
    let end = got.end;
    let vpcc = Vpcc {
        version: v[0] as u8,
        flags: v[1] as u32,
        profile: v[2] as u8,
        level: v[3] as u8,
        sampling: v[4] as u8,
        colour_primaries: v[5] as u8,
        transfer_characteristics: v[6] as u8,
        matrix_coefficients: v[7] as u8,
        codec_initialization_data_size: v[8] as u16,
    };
    let cells = v[8];
    let cut = layout::table::first_cut(&part[..end], place, cells, 1);
    match cut {
        None => Ok((vpcc, place)),
        Some(p) => Err(Refusal::Cut(p)),
    }
}

// The initialization data, as the part of the box where they lie; no bytes where the box is refused.
pub fn initialization(part: &[u8]) -> &[u8]
    ensures { result.now ≡ initialization_of part.now }
{
    match read(part) {
        Ok((vpcc, place)) => {
            let size = vpcc.codec_initialization_data_size as usize;
            parts::part(part, place, size)
        }
        Err(_) => &part[..0],
    }
}
