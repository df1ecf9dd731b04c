#![tactic(auto, unfolding(numbers::specs::Field::when, numbers::specs::Field::field))]
// The handler of a track (ISO/IEC 14496-12, 8.4.3): four letters of any kind (A26), and a name, which is the rest of
// the box.
ghost use Rattle.std.specs.Prelude.{◌≡◌};
ghost use Rattle.put.specs.Put.{wrote};
ghost use Rattle.hdlr.specs.Hdlr.{hdlr_of, name_of, hdlr_in};

use layout::Field;
use numbers::Refusal;

#[derive(Clone, Copy)]
pub struct Hdlr {
    pub version: u8,
    pub flags: u32,
    pub handler_type: u32,
}

pub const KIND: u32 = 0x68646c72;

pub const ROW: [Field; 8] = [
    Field::Version(0, 0),
    Field::Flags,
    Field::Reserved(4, 0),
    Field::Number(4),
    Field::Reserved(4, 0),
    Field::Reserved(4, 0),
    Field::Reserved(4, 0),
    Field::Nothing,
];

pub fn read(part: &[u8]) -> Result<Hdlr, Refusal>
    ensures { result ≡ hdlr_of part.now }
{
    let got = short::read::by(part, KIND, ROW)?;
    let v = got.values;
    Ok(Hdlr {
        version: v[0] as u8,
        flags: v[1] as u32,
        handler_type: v[2] as u32,
    })
}

// The name, as the part of the box where it lies; no bytes where the box is refused.
pub fn name(part: &[u8]) -> &[u8]
    ensures { result.now ≡ name_of part.now }
{
    short::read::rest(part, KIND, ROW)
}

pub fn write(hdlr: Hdlr, name: &[u8], out: &mut [u8]) -> Result<usize, Refusal>
    ensures { wrote result out.new ≡ hdlr_in hdlr name.now out.old }
{
    let v = [
        hdlr.version as u64,
        hdlr.flags as u64,
        hdlr.handler_type as u64,
        0,
        0,
        0,
        0,
        0,
    ];
    short::write::by(out, KIND, ROW, v, name)
}
