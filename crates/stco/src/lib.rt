#![tactic(auto, unfolding(numbers::specs::Field::when, numbers::specs::Field::field))]
// The chunk offsets (ISO/IEC 14496-12, 8.7.5) in 32 bits: a count, and as many offsets.
ghost use Rattle.std.specs.Prelude.{◌≡◌};
ghost use Rattle.put.specs.Put.{wrote};
ghost use Rattle.stco.specs.Stco.{stco_of, stco_in, entry_of};

use layout::Field;
use numbers::Refusal;

#[derive(Clone, Copy)]
pub struct Stco {
    pub version: u8,
    pub flags: u32,
    pub count: u32,
}

pub const KIND: u32 = 0x7374636f;

pub const ROW: [Field; 8] = [
    Field::Version(0, 0),
    Field::Flags,
    Field::Number(4),
    Field::Nothing,
    Field::Nothing,
    Field::Nothing,
    Field::Nothing,
    Field::Nothing,
];

// The box, and where its entries begin.
pub fn read(part: &[u8]) -> Result<(Stco, usize), Refusal>
    ensures { result ≡ stco_of part.now }
{
    let got = short::read::by(part, KIND, ROW)?;
    let v = got.values;
    let place = got.place;
    let end = got.end;
    let stco = Stco {
        version: v[0] as u8,
        flags: v[1] as u32,
        count: v[2] as u32,
    };
    let cells = v[2];
    let cut = layout::table::first_cut(&part[..end], place, cells, 4);
    match cut {
        None => Ok((stco, place)),
        Some(p) => Err(Refusal::Cut(p)),
    }
}

// The entries are lent as the bytes that they have in the box; 13 where they are not as many as the count says.
pub fn write(stco: Stco, entries: &[u8], out: &mut [u8]) -> Result<usize, Refusal>
    ensures { wrote result out.new ≡ stco_in stco entries.now out.old }
{
    let size = stco.count as u64 * 4;
    if entries.len() as u64 != size {
        return Err(Refusal::Unwritable);
    }
    let v = [
        stco.version as u64,
        stco.flags as u64,
        stco.count as u64,
        0,
        0,
        0,
        0,
        0,
    ];
    short::write::by(out, KIND, ROW, v, entries)
}

// The i-th offset, counted from 0, of the bytes of the entries.
pub fn entry(entries: &[u8], i: u32) -> Result<u32, Refusal>
    ensures { result ≡ entry_of entries.now i }
{
    numbers::read::<u32>(entries, (i as usize) * 4)
}
