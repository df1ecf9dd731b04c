#![tactic(auto, unfolding(numbers::specs::Field::when, numbers::specs::Field::field))]
// Where the media data of a track may lie (ISO/IEC 14496-12, 8.7.2): how many references there are, and then the boxes
// of these, to the box's end. Whether there are as many as the count says is told by the tree of boxes (A47).
ghost use Rattle.std.specs.Prelude.{◌≡◌};
ghost use Rattle.put.specs.Put.{wrote};
ghost use Rattle.dref.specs.Dref.{dref_of, entries_of, dref_in};

use layout::Field;
use numbers::Refusal;

#[derive(Clone, Copy)]
pub struct Dref {
    pub version: u8,
    pub flags: u32,
    pub count: u32,
}

pub const KIND: u32 = 0x64726566;

pub const ROW: [Field; 8] = [
    Field::Version(0, 0),
    Field::Flags,
    Field::Number(4),
    Field::Nothing,
    Field::Nothing,
    Field::Nothing,
    Field::Nothing,
    Field::Nothing,
];

pub fn read(part: &[u8]) -> Result<Dref, Refusal>
    ensures { result ≡ dref_of part.now }
{
    let got = short::read::by(part, KIND, ROW)?;
    let v = got.values;
    Ok(Dref {
        version: v[0] as u8,
        flags: v[1] as u32,
        count: v[2] as u32,
    })
}

// The references, as the part of the box where they lie; no bytes where the box is refused.
pub fn entries(part: &[u8]) -> &[u8]
    ensures { result.now ≡ entries_of part.now }
{
    short::read::rest(part, KIND, ROW)
}

pub fn write(dref: Dref, entries: &[u8], out: &mut [u8]) -> Result<usize, Refusal>
    ensures { wrote result out.new ≡ dref_in dref entries.now out.old }
{
    let v = [
        dref.version as u64,
        dref.flags as u64,
        dref.count as u64,
        0,
        0,
        0,
        0,
        0,
    ];
    short::write::by(out, KIND, ROW, v, entries)
}
