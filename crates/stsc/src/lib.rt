#![tactic(auto, unfolding(numbers::specs::Field::when, numbers::specs::Field::field))]
// Which chunk has how many samples (ISO/IEC 14496-12, 8.7.4): a count, and as many runs. First chunks begin at 1 and
// rise strictly, and no run has 0 samples in a chunk (A21).
ghost use Rattle.std.specs.Prelude.{◌≡◌};
ghost use Rattle.put.specs.Put.{wrote};
ghost use Rattle.stsc.specs.Stsc.{stsc_of, stsc_in, entry_of};

use layout::Field;
use numbers::Refusal;
use rows::Cell;

#[derive(Clone, Copy)]
pub struct Stsc {
    pub version: u8,
    pub flags: u32,
    pub count: u32,
}

pub const KIND: u32 = 0x73747363;

pub const ROW: [Field; 8] = [
    Field::Version(0, 0),
    Field::Flags,
    Field::Number(4),
    Field::Nothing,
    Field::Nothing,
    Field::Nothing,
    Field::Nothing,
    Field::Nothing,
];

// A run: its first chunk, the samples in each chunk, and their description.
const CELLS: [Cell; 4] = [
    Cell::FromOne(4),
    Cell::Least(4, 1),
    Cell::Any(4),
    Cell::Nothing,
];

// The box, and where its entries begin.
pub fn read(part: &[u8]) -> Result<(Stsc, usize), Refusal>
    ensures { result ≡ stsc_of part.now }
{
    let got = short::read::by(part, KIND, ROW)?;
    let v = got.values;
    let place = got.place;
    let end = got.end;
    let stsc = Stsc {
        version: v[0] as u8,
        flags: v[1] as u32,
        count: v[2] as u32,
    };
    let () = rows::judge(&part[..end], place, stsc.count, CELLS)?;
    Ok((stsc, place))
}

// The entries are lent as the bytes that they have in the box; 13 where they are not as many as the count says, or
// where the reader would refuse one.
pub fn write(stsc: Stsc, entries: &[u8], out: &mut [u8]) -> Result<usize, Refusal>
    ensures { wrote result out.new ≡ stsc_in stsc entries.now out.old }
{
    let size = stsc.count as u64 * 12;
    if entries.len() as u64 != size {
        return Err(Refusal::Unwritable);
    }
    let Ok(()) = rows::judge(entries, 0, stsc.count, CELLS) else {
        return Err(Refusal::Unwritable);
    };
    let v = [
        stsc.version as u64,
        stsc.flags as u64,
        stsc.count as u64,
        0,
        0,
        0,
        0,
        0,
    ];
    short::write::by(out, KIND, ROW, v, entries)
}

#[derive(Clone, Copy)]
pub struct Run {
    pub first_chunk: u32,
    pub samples_per_chunk: u32,
    pub sample_description_index: u32,
}

// The i-th run, counted from 0, of the bytes of the entries.
pub fn entry(entries: &[u8], i: u32) -> Result<Run, Refusal>
    ensures { result ≡ entry_of entries.now i }
{
    let at = (i as usize) * 12;
    let chunk = numbers::read::<u32>(entries, at)?;
    let samples = numbers::read::<u32>(entries, at + 4)?;
    let description = numbers::read::<u32>(entries, at + 8)?;
    Ok(Run {
        first_chunk: chunk,
        samples_per_chunk: samples,
        sample_description_index: description,
    })
}
