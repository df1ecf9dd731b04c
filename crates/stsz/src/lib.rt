#![tactic(auto, unfolding(numbers::specs::Field::when, numbers::specs::Field::field))]
// The sample sizes (ISO/IEC 14496-12, 8.7.3.2): a size that all samples have in common, or 0, a count, and where it is
// 0 as many sizes.
ghost use Rattle.std.specs.Prelude.{◌≡◌};
ghost use Rattle.put.specs.Put.{wrote};
ghost use Rattle.stsz.specs.Stsz.{listed_of, stsz_of, stsz_in, entry_of};

use layout::Field;
use numbers::Refusal;

#[derive(Clone, Copy)]
pub struct Stsz {
    pub version: u8,
    pub flags: u32,
    pub sample_size: u32,
    pub count: u32,
}

pub const KIND: u32 = 0x7374737a;

pub const ROW: [Field; 8] = [
    Field::Version(0, 0),
    Field::Flags,
    Field::Number(4),
    Field::Number(4),
    Field::Nothing,
    Field::Nothing,
    Field::Nothing,
    Field::Nothing,
];

// How many sizes are listed.
fn listed(common: u64, count: u64) -> u64
    ensures { result ≡ listed_of common count }
{
    if common == 0 { count } else { 0 }
}

// The box, and where its entries begin.
pub fn read(part: &[u8]) -> Result<(Stsz, usize), Refusal>
    ensures { result ≡ stsz_of part.now }
{
    let got = short::read::by(part, KIND, ROW)?;
    let v = got.values;
    let place = got.place;
    let end = got.end;
    let stsz = Stsz {
        version: v[0] as u8,
        flags: v[1] as u32,
        sample_size: v[2] as u32,
        count: v[3] as u32,
    };
    let cells = listed(v[2], v[3]);
    let cut = layout::table::first_cut(&part[..end], place, cells, 4);
    match cut {
        None => Ok((stsz, place)),
        Some(p) => Err(Refusal::Cut(p)),
    }
}

// The entries are lent as the bytes that they have in the box; 13 where they are not as many as the count says.
pub fn write(stsz: Stsz, entries: &[u8], out: &mut [u8]) -> Result<usize, Refusal>
    ensures { wrote result out.new ≡ stsz_in stsz entries.now out.old }
{
    let size = listed(stsz.sample_size as u64, stsz.count as u64) * 4;
    if entries.len() as u64 != size {
        return Err(Refusal::Unwritable);
    }
    let v = [
        stsz.version as u64,
        stsz.flags as u64,
        stsz.sample_size as u64,
        stsz.count as u64,
        0,
        0,
        0,
        0,
    ];
    short::write::by(out, KIND, ROW, v, entries)
}

// The i-th size, counted from 0, of the bytes of the entries.
pub fn entry(entries: &[u8], i: u32) -> Result<u32, Refusal>
    ensures { result ≡ entry_of entries.now i }
{
    numbers::read::<u32>(entries, (i as usize) * 4)
}
