#![tactic(auto, unfolding(numbers::specs::Field::when, numbers::specs::Field::field))]
// The decoding times (ISO/IEC 14496-12, 8.6.1.2): a count, and as many pairs of a count and a delta. A count of 0 in a
// pair is allowed (A53).
ghost use Rattle.std.specs.Prelude.{◌≡◌};
ghost use Rattle.put.specs.Put.{wrote};
ghost use Rattle.stts.specs.Stts.{stts_of, stts_in, entry_of};

use layout::Field;
use numbers::Refusal;

#[derive(Clone, Copy)]
pub struct Stts {
    pub version: u8,
    pub flags: u32,
    pub count: u32,
}

pub const KIND: u32 = 0x73747473;

pub const ROW: [Field; 8] = [
    Field::Version(0, 0),
    Field::Flags,
    Field::Number(4),
    Field::Nothing,
    Field::Nothing,
    Field::Nothing,
    Field::Nothing,
    Field::Nothing,
];

// The box, and where its entries begin.
pub fn read(part: &[u8]) -> Result<(Stts, usize), Refusal>
    ensures { result ≡ stts_of part.now }
{
    let got = short::read::by(part, KIND, ROW)?;
    let v = got.values;
    let place = got.place;
    let end = got.end;
    let stts = Stts {
        version: v[0] as u8,
        flags: v[1] as u32,
        count: v[2] as u32,
    };
    let cells = v[2] * 2;
    let cut = layout::table::first_cut(&part[..end], place, cells, 4);
    match cut {
        None => Ok((stts, place)),
        Some(p) => Err(Refusal::Cut(p)),
    }
}

// The entries are lent as the bytes that they have in the box; 13 where they are not as many as the count says.
pub fn write(stts: Stts, entries: &[u8], out: &mut [u8]) -> Result<usize, Refusal>
    ensures { wrote result out.new ≡ stts_in stts entries.now out.old }
{
    let size = stts.count as u64 * 2 * 4;
    if entries.len() as u64 != size {
        return Err(Refusal::Unwritable);
    }
    let v = [
        stts.version as u64,
        stts.flags as u64,
        stts.count as u64,
        0,
        0,
        0,
        0,
        0,
    ];
    short::write::by(out, KIND, ROW, v, entries)
}

// A pair of the table: so many samples with this duration.
#[derive(Clone, Copy)]
pub struct Run {
    pub sample_count: u32,
    pub sample_delta: u32,
}

// The i-th pair, counted from 0, of the bytes of the entries.
pub fn entry(entries: &[u8], i: u32) -> Result<Run, Refusal>
    ensures { result ≡ entry_of entries.now i }
{
    let at = (i as usize) * 8;
    let count = numbers::read::<u32>(entries, at)?;
    let delta = numbers::read::<u32>(entries, at + 4)?;
    Ok(Run {
        sample_count: count,
        sample_delta: delta,
    })
}
