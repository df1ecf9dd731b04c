#![tactic(auto, unfolding(numbers::specs::Field::when, numbers::specs::Field::field))]
// The track fragment header (ISO/IEC 14496-12, 8.8.7). A field whose flag is not set is 0; a track number of 0 is 8.
ghost use Rattle.std.specs.Prelude.{◌≡◌};
ghost use Rattle.put.specs.Put.{wrote};
ghost use Rattle.tfhd.specs.Tfhd.{tfhd_of, tfhd_in};

use layout::Field;
use numbers::Refusal;

#[derive(Clone, Copy)]
pub struct Tfhd {
    pub version: u8,
    pub flags: u32,
    pub track_id: u32,
    pub base_data_offset: u64,
    pub sample_description_index: u32,
    pub default_sample_duration: u32,
    pub default_sample_size: u32,
    pub default_sample_flags: u32,
}

pub const KIND: u32 = 0x74666864;

pub const ROW: [Field; 8] = [
    Field::Version(0, 0),
    Field::Flags,
    Field::Least(4, 1),
    Field::Optional(8, 1),
    Field::Optional(4, 2),
    Field::Optional(4, 8),
    Field::Optional(4, 16),
    Field::Optional(4, 32),
];

pub fn read(part: &[u8]) -> Result<Tfhd, Refusal>
    ensures { result ≡ tfhd_of part.now }
{
    let got = short::read::by(part, KIND, ROW)?;
    let v = got.values;
    Ok(Tfhd {
        version: v[0] as u8,
        flags: v[1] as u32,
        track_id: v[2] as u32,
        base_data_offset: v[3],
        sample_description_index: v[4] as u32,
        default_sample_duration: v[5] as u32,
        default_sample_size: v[6] as u32,
        default_sample_flags: v[7] as u32,
    })
}

pub fn write(tfhd: Tfhd, out: &mut [u8]) -> Result<usize, Refusal>
    ensures { wrote result out.new ≡ tfhd_in tfhd out.old }
{
    let v = [
        tfhd.version as u64,
        tfhd.flags as u64,
        tfhd.track_id as u64,
        tfhd.base_data_offset,
        tfhd.sample_description_index as u64,
        tfhd.default_sample_duration as u64,
        tfhd.default_sample_size as u64,
        tfhd.default_sample_flags as u64,
    ];
    short::write::plain(out, KIND, ROW, v)
}
