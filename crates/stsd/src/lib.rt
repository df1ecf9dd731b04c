#![tactic(auto, unfolding(numbers::specs::Field::when, numbers::specs::Field::field))]
// How the samples of a track are coded (ISO/IEC 14496-12, 8.5.2): how many sample entries there are, and then their
// boxes, to the box's end. Whether there are as many as the count says is told by the tree of boxes (A47).
ghost use Rattle.std.specs.Prelude.{◌≡◌};
ghost use Rattle.put.specs.Put.{wrote};
ghost use Rattle.stsd.specs.Stsd.{stsd_of, entries_of, entry_of, stsd_in};

use layout::Field;
use numbers::Refusal;

#[derive(Clone, Copy)]
pub struct Stsd {
    pub version: u8,
    pub flags: u32,
    pub count: u32,
}

pub const KIND: u32 = 0x73747364;

pub const ROW: [Field; 8] = [
    Field::Version(0, 0),
    Field::Flags,
    Field::Number(4),
    Field::Nothing,
    Field::Nothing,
    Field::Nothing,
    Field::Nothing,
    Field::Nothing,
];

pub fn read(part: &[u8]) -> Result<Stsd, Refusal>
    ensures { result ≡ stsd_of part.now }
{
    let got = short::read::by(part, KIND, ROW)?;
    let v = got.values;
    Ok(Stsd {
        version: v[0] as u8,
        flags: v[1] as u32,
        count: v[2] as u32,
    })
}

// The sample entries, as the part of the box where they lie; no bytes where the box is refused.
pub fn entries(part: &[u8]) -> &[u8]
    ensures { result.now ≡ entries_of part.now }
{
    short::read::rest(part, KIND, ROW)
}

// The i-th sample entry, counted from 0, as the part of the box where it lies, from its header to its end; no bytes where
// the box is refused, where it does not count so many, or where a fault comes before the entry.
pub fn entry(part: &[u8], i: u32) -> &[u8]
    ensures { result.now ≡ entry_of part.now i }
{
    match read(part) {
        Ok(stsd) => {
            if stsd.count <= i {
                return &part[..0];
            }
            let list = entries(part);
            boxparts::nth_box(list, i)
        }
        Err(_) => &part[..0],
    }
}

pub fn write(stsd: Stsd, entries: &[u8], out: &mut [u8]) -> Result<usize, Refusal>
    ensures { wrote result out.new ≡ stsd_in stsd entries.now out.old }
{
    let v = [
        stsd.version as u64,
        stsd.flags as u64,
        stsd.count as u64,
        0,
        0,
        0,
        0,
        0,
    ];
    short::write::by(out, KIND, ROW, v, entries)
}
