#![tactic(auto, unfolding(numbers::specs::Field::when, numbers::specs::Field::field))]
// A sample entry of a visual track, of any kind (ISO/IEC 14496-12, 12.1.3): which data reference its samples are in, the
// size of the picture, its resolutions as raw 16.16, how many frames a sample has, the 32 bytes of the compressor's name as
// four numbers, and the depth. Behind them its boxes, to the entry's end. What is predefined or reserved is passed over.
ghost use Rattle.std.specs.Prelude.{◌≡◌};
ghost use Rattle.visual.specs.Visual.{visual_of};

use layout::Field;
use numbers::Refusal;

#[derive(Clone, Copy)]
pub struct Visual {
    pub data_reference_index: u16,
    pub width: u16,
    pub height: u16,
    pub horizresolution: u32,
    pub vertresolution: u32,
    pub frame_count: u16,
    pub name0: u64,
    pub name1: u64,
    pub name2: u64,
    pub name3: u64,
    pub depth: u16,
}

pub const ROW: [Field; 24] = [
    Field::Reserved(6, 0),
    Field::Number(2),
    Field::Reserved(2, 0),
    Field::Reserved(2, 0),
    Field::Reserved(4, 0),
    Field::Reserved(4, 0),
    Field::Reserved(4, 0),
    Field::Number(2),
    Field::Number(2),
    Field::Number(4),
    Field::Number(4),
    Field::Reserved(4, 0),
    Field::Number(2),
    Field::Number(8),
    Field::Number(8),
    Field::Number(8),
    Field::Number(8),
    Field::Number(2),
    Field::Reserved(2, 0xffff),
    Field::Nothing,
    Field::Nothing,
    Field::Nothing,
    Field::Nothing,
    Field::Nothing,
];

pub fn read(part: &[u8], kind: u32) -> Result<Visual, Refusal>
    ensures { result ≡ visual_of kind part.now }
{
    let got = layout::read::by(part, kind, ROW)?;
    let v = got.values;
    Ok(Visual {
        data_reference_index: v[0] as u16,
        width: v[1] as u16,
        height: v[2] as u16,
        horizresolution: v[3] as u32,
        vertresolution: v[4] as u32,
        frame_count: v[5] as u16,
        name0: v[6],
        name1: v[7],
        name2: v[8],
        name3: v[9],
        depth: v[10] as u16,
    })
}
