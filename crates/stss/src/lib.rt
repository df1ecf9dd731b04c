#![tactic(auto, unfolding(numbers::specs::Field::when, numbers::specs::Field::field))]
// The sync samples (ISO/IEC 14496-12, 8.6.2): a count, and as many sample numbers, from 1 on and strictly rising (A21).
ghost use Rattle.std.specs.Prelude.{◌≡◌};
ghost use Rattle.put.specs.Put.{wrote};
ghost use Rattle.stss.specs.Stss.{stss_of, stss_in, entry_of};

use layout::Field;
use numbers::Refusal;
use rows::Cell;

#[derive(Clone, Copy)]
pub struct Stss {
    pub version: u8,
    pub flags: u32,
    pub count: u32,
}

pub const KIND: u32 = 0x73747373;

pub const ROW: [Field; 8] = [
    Field::Version(0, 0),
    Field::Flags,
    Field::Number(4),
    Field::Nothing,
    Field::Nothing,
    Field::Nothing,
    Field::Nothing,
    Field::Nothing,
];

// A sample number, above the one before.
const CELLS: [Cell; 4] = [Cell::Rising(4), Cell::Nothing, Cell::Nothing, Cell::Nothing];

// The box, and where its entries begin.
pub fn read(part: &[u8]) -> Result<(Stss, usize), Refusal>
    ensures { result ≡ stss_of part.now }
{
    let got = short::read::by(part, KIND, ROW)?;
    let v = got.values;
    let place = got.place;
    let end = got.end;
    let stss = Stss {
        version: v[0] as u8,
        flags: v[1] as u32,
        count: v[2] as u32,
    };
    let () = rows::judge(&part[..end], place, stss.count, CELLS)?;
    Ok((stss, place))
}

// The entries are lent as the bytes that they have in the box; 13 where they are not as many as the count says, or
// where the reader would refuse one.
pub fn write(stss: Stss, entries: &[u8], out: &mut [u8]) -> Result<usize, Refusal>
    ensures { wrote result out.new ≡ stss_in stss entries.now out.old }
{
    let size = stss.count as u64 * 4;
    if entries.len() as u64 != size {
        return Err(Refusal::Unwritable);
    }
    let Ok(()) = rows::judge(entries, 0, stss.count, CELLS) else {
        return Err(Refusal::Unwritable);
    };
    let v = [
        stss.version as u64,
        stss.flags as u64,
        stss.count as u64,
        0,
        0,
        0,
        0,
        0,
    ];
    short::write::by(out, KIND, ROW, v, entries)
}

// The i-th sample number, counted from 0, of the bytes of the entries.
pub fn entry(entries: &[u8], i: u32) -> Result<u32, Refusal>
    ensures { result ≡ entry_of entries.now i }
{
    numbers::read::<u32>(entries, (i as usize) * 4)
}
