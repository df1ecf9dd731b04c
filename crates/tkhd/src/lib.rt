#![tactic(auto, unfolding(numbers::specs::Field::when, numbers::specs::Field::field))]
// The track header (ISO/IEC 14496-12, 8.3.2). 92 bytes in version 0 and 104 in version 1; a track number of 0 is 8.
ghost use Rattle.std.specs.Prelude.{◌≡◌};
ghost use Rattle.put.specs.Put.{wrote};
ghost use Rattle.tkhd.specs.Tkhd.{tkhd_of, tkhd_in};

use layout::Field;
use numbers::Refusal;

#[derive(Clone, Copy)]
pub struct Tkhd {
    pub version: u8,
    pub flags: u32,
    pub creation_time: u64,
    pub modification_time: u64,
    pub track_id: u32,
    pub duration: u64,
    pub layer: u16,
    pub alternate_group: u16,
    pub volume: u16,
    pub matrix_a: u32,
    pub matrix_b: u32,
    pub matrix_u: u32,
    pub matrix_c: u32,
    pub matrix_d: u32,
    pub matrix_v: u32,
    pub matrix_x: u32,
    pub matrix_y: u32,
    pub matrix_w: u32,
    pub width: u32,
    pub height: u32,
}

pub const KIND: u32 = 0x746b6864;

pub const ROW: [Field; 24] = [
    Field::Version(0, 1),
    Field::Flags,
    Field::Wide(4, 8),
    Field::Wide(4, 8),
    Field::Least(4, 1),
    Field::Reserved(4, 0),
    Field::Wide(4, 8),
    Field::Reserved(8, 0),
    Field::Number(2),
    Field::Number(2),
    Field::Number(2),
    Field::Reserved(2, 0),
    Field::Number(4),
    Field::Number(4),
    Field::Number(4),
    Field::Number(4),
    Field::Number(4),
    Field::Number(4),
    Field::Number(4),
    Field::Number(4),
    Field::Number(4),
    Field::Number(4),
    Field::Number(4),
    Field::Nothing,
];

pub fn read(part: &[u8]) -> Result<Tkhd, Refusal>
    ensures { result ≡ tkhd_of part.now }
{
    let got = layout::read::by(part, KIND, ROW)?;
    let v = got.values;
    Ok(Tkhd {
        version: v[0] as u8,
        flags: v[1] as u32,
        creation_time: v[2],
        modification_time: v[3],
        track_id: v[4] as u32,
        duration: v[5],
        layer: v[6] as u16,
        alternate_group: v[7] as u16,
        volume: v[8] as u16,
        matrix_a: v[9] as u32,
        matrix_b: v[10] as u32,
        matrix_u: v[11] as u32,
        matrix_c: v[12] as u32,
        matrix_d: v[13] as u32,
        matrix_v: v[14] as u32,
        matrix_x: v[15] as u32,
        matrix_y: v[16] as u32,
        matrix_w: v[17] as u32,
        width: v[18] as u32,
        height: v[19] as u32,
    })
}

pub fn write(tkhd: Tkhd, out: &mut [u8]) -> Result<usize, Refusal>
    ensures { wrote result out.new ≡ tkhd_in tkhd out.old }
{
    let v = [
        tkhd.version as u64,
        tkhd.flags as u64,
        tkhd.creation_time,
        tkhd.modification_time,
        tkhd.track_id as u64,
        tkhd.duration,
        tkhd.layer as u64,
        tkhd.alternate_group as u64,
        tkhd.volume as u64,
        tkhd.matrix_a as u64,
        tkhd.matrix_b as u64,
        tkhd.matrix_u as u64,
        tkhd.matrix_c as u64,
        tkhd.matrix_d as u64,
        tkhd.matrix_v as u64,
        tkhd.matrix_x as u64,
        tkhd.matrix_y as u64,
        tkhd.matrix_w as u64,
        tkhd.width as u64,
        tkhd.height as u64,
        0,
        0,
        0,
        0,
    ];
    layout_write::plain(out, KIND, ROW, v)
}
