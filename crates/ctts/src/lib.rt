#![tactic(auto, unfolding(numbers::specs::Field::when, numbers::specs::Field::field))]
// The composition offsets (ISO/IEC 14496-12, 8.6.1.3): a count, and as many pairs of a count and an offset. The offset
// is signed in versions 0 and 1 alike, as the Rust has it and against the standard (document 01).
ghost use Rattle.std.specs.Prelude.{◌≡◌};
ghost use Rattle.put.specs.Put.{wrote};
ghost use Rattle.ctts.specs.Ctts.{ctts_of, ctts_in, entry_of};

use layout::Field;
use numbers::Refusal;

#[derive(Clone, Copy)]
pub struct Ctts {
    pub version: u8,
    pub flags: u32,
    pub count: u32,
}

pub const KIND: u32 = 0x63747473;

pub const ROW: [Field; 8] = [
    Field::Version(0, 1),
    Field::Flags,
    Field::Number(4),
    Field::Nothing,
    Field::Nothing,
    Field::Nothing,
    Field::Nothing,
    Field::Nothing,
];

// The box, and where its entries begin.
pub fn read(part: &[u8]) -> Result<(Ctts, usize), Refusal>
    ensures { result ≡ ctts_of part.now }
{
    let got = short::read::by(part, KIND, ROW)?;
    let v = got.values;
    let place = got.place;
    let end = got.end;
    let ctts = Ctts {
        version: v[0] as u8,
        flags: v[1] as u32,
        count: v[2] as u32,
    };
    let cells = v[2] * 2;
    let cut = layout::table::first_cut(&part[..end], place, cells, 4);
    match cut {
        None => Ok((ctts, place)),
        Some(p) => Err(Refusal::Cut(p)),
    }
}

// The entries are lent as the bytes that they have in the box; 13 where they are not as many as the count says.
pub fn write(ctts: Ctts, entries: &[u8], out: &mut [u8]) -> Result<usize, Refusal>
    ensures { wrote result out.new ≡ ctts_in ctts entries.now out.old }
{
    let size = ctts.count as u64 * 2 * 4;
    if entries.len() as u64 != size {
        return Err(Refusal::Unwritable);
    }
    let v = [
        ctts.version as u64,
        ctts.flags as u64,
        ctts.count as u64,
        0,
        0,
        0,
        0,
        0,
    ];
    short::write::by(out, KIND, ROW, v, entries)
}

// A pair of the table: so many samples with this offset.
#[derive(Clone, Copy)]
pub struct Run {
    pub sample_count: u32,
    pub sample_offset: i32,
}

// The i-th pair, counted from 0, of the bytes of the entries.
pub fn entry(entries: &[u8], i: u32) -> Result<Run, Refusal>
    ensures { result ≡ entry_of entries.now i }
{
    let at = (i as usize) * 8;
    let count = numbers::read::<u32>(entries, at)?;
    let offset = signed::read::<i32>(entries, at + 4)?;
    Ok(Run {
        sample_count: count,
        sample_offset: offset,
    })
}
