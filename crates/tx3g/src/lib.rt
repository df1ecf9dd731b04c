#![tactic(auto, unfolding(numbers::specs::Field::when, numbers::specs::Field::field))]
// How timed text is shown (3GPP TS 26.245, 5.16): the text's place and its first style, and then boxes, the font
// table among them, to the box's end. The justifications and the four sides of the text's box are signed numbers there;
// they are kept as their raw bits, in two's complement.
ghost use Rattle.std.specs.Prelude.{◌≡◌};
ghost use Rattle.tx3g.specs.Tx3g.{tx3g_of};

use layout::Field;
use numbers::Refusal;

#[derive(Clone, Copy)]
pub struct Tx3g {
    pub data_reference_index: u16,
    pub display_flags: u32,
    pub horizontal_justification: u8,
    pub vertical_justification: u8,
    pub background_red: u8,
    pub background_green: u8,
    pub background_blue: u8,
    pub background_alpha: u8,
    pub top: u16,
    pub left: u16,
    pub bottom: u16,
    pub right: u16,
    pub start_char: u16,
    pub end_char: u16,
    pub font_id: u16,
    pub face_style_flags: u8,
    pub font_size: u8,
    pub text_red: u8,
    pub text_green: u8,
    pub text_blue: u8,
    pub text_alpha: u8,
}

pub const KIND: u32 = 0x74783367;

pub const ROW: [Field; 24] = [
    Field::Reserved(6, 0),
    Field::Number(2),
    Field::Number(4),
    Field::Number(1),
    Field::Number(1),
    Field::Number(1),
    Field::Number(1),
    Field::Number(1),
    Field::Number(1),
    Field::Number(2),
    Field::Number(2),
    Field::Number(2),
    Field::Number(2),
    Field::Number(2),
    Field::Number(2),
    Field::Number(2),
    Field::Number(1),
    Field::Number(1),
    Field::Number(1),
    Field::Number(1),
    Field::Number(1),
    Field::Number(1),
    Field::Nothing,
    Field::Nothing,
];

pub fn read(part: &[u8]) -> Result<Tx3g, Refusal>
    ensures { result ≡ tx3g_of part.now }
{
    let got = layout::read::by(part, KIND, ROW)?;
    let v = got.values;
    Ok(Tx3g {
        data_reference_index: v[0] as u16,
        display_flags: v[1] as u32,
        horizontal_justification: v[2] as u8,
        vertical_justification: v[3] as u8,
        background_red: v[4] as u8,
        background_green: v[5] as u8,
        background_blue: v[6] as u8,
        background_alpha: v[7] as u8,
        top: v[8] as u16,
        left: v[9] as u16,
        bottom: v[10] as u16,
        right: v[11] as u16,
        start_char: v[12] as u16,
        end_char: v[13] as u16,
        font_id: v[14] as u16,
        face_style_flags: v[15] as u8,
        font_size: v[16] as u8,
        text_red: v[17] as u8,
        text_green: v[18] as u8,
        text_blue: v[19] as u8,
        text_alpha: v[20] as u8,
    })
}
