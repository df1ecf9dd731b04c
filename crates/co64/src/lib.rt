#![tactic(auto, unfolding(numbers::specs::Field::when, numbers::specs::Field::field))]
// The chunk offsets (ISO/IEC 14496-12, 8.7.5) in 64 bits: a count, and as many offsets.
ghost use Rattle.std.specs.Prelude.{◌≡◌};
ghost use Rattle.put.specs.Put.{wrote};
ghost use Rattle.co64.specs.Co64.{co64_of, co64_in, entry_of};

use layout::Field;
use numbers::Refusal;

#[derive(Clone, Copy)]
pub struct Co64 {
    pub version: u8,
    pub flags: u32,
    pub count: u32,
}

pub const KIND: u32 = 0x636f3634;

pub const ROW: [Field; 8] = [
    Field::Version(0, 0),
    Field::Flags,
    Field::Number(4),
    Field::Nothing,
    Field::Nothing,
    Field::Nothing,
    Field::Nothing,
    Field::Nothing,
];

// The box, and where its entries begin.
pub fn read(part: &[u8]) -> Result<(Co64, usize), Refusal>
    ensures { result ≡ co64_of part.now }
{
    let got = short::read::by(part, KIND, ROW)?;
    let v = got.values;
    let place = got.place;
    let end = got.end;
    let co64 = Co64 {
        version: v[0] as u8,
        flags: v[1] as u32,
        count: v[2] as u32,
    };
    let cells = v[2];
    let cut = layout::table::first_cut(&part[..end], place, cells, 8);
    match cut {
        None => Ok((co64, place)),
        Some(p) => Err(Refusal::Cut(p)),
    }
}

// The entries are lent as the bytes that they have in the box; 13 where they are not as many as the count says.
pub fn write(co64: Co64, entries: &[u8], out: &mut [u8]) -> Result<usize, Refusal>
    ensures { wrote result out.new ≡ co64_in co64 entries.now out.old }
{
    let size = co64.count as u64 * 8;
    if entries.len() as u64 != size {
        return Err(Refusal::Unwritable);
    }
    let v = [
        co64.version as u64,
        co64.flags as u64,
        co64.count as u64,
        0,
        0,
        0,
        0,
        0,
    ];
    short::write::by(out, KIND, ROW, v, entries)
}

// The i-th offset, counted from 0, of the bytes of the entries.
pub fn entry(entries: &[u8], i: u32) -> Result<u64, Refusal>
    ensures { result ≡ entry_of entries.now i }
{
    numbers::read::<u64>(entries, (i as usize) * 8)
}
