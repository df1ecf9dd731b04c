#![tactic(auto, unfolding(numbers::specs::Field::when, numbers::specs::Field::field))]
// The track fragment run (ISO/IEC 14496-12, 8.8.8): a count of samples, where their data begin, the flags of the first
// one, and for each sample those of its four values whose flags are set. A field whose flag is not set is 0.
ghost use Rattle.std.specs.Prelude.{◌≡◌, Ok, Err};
ghost use Rattle.put.specs.Put.{wrote};
ghost use Rattle.signed.specs.Signed.{signed};
ghost use Rattle.layout.specs.Rule.{is_set};
ghost use Rattle.trun.specs.Trun.{present, per_sample, cells_of, optional, composition_of};
ghost use Rattle.trun.specs.Trun.{trun_of, trun_in, offset_of, entry_of};

use layout::Field;
use numbers::Refusal;

// The data offset is kept as its 32 bits: `offset_of` says what they stand for.
#[derive(Clone, Copy)]
pub struct Trun {
    pub version: u8,
    pub flags: u32,
    pub sample_count: u32,
    pub data_offset: u32,
    pub first_sample_flags: u32,
}

pub const KIND: u32 = 0x7472756e;

// The flags with which a value is there.
const DATA_OFFSET_BIT: u32 = 0x1;

const FIRST_FLAGS_BIT: u32 = 0x4;

const DURATION_BIT: u32 = 0x100;

const SIZE_BIT: u32 = 0x200;

const FLAGS_BIT: u32 = 0x400;

const COMPOSITION_BIT: u32 = 0x800;

pub const ROW: [Field; 8] = [
    Field::Version(0, 1),
    Field::Flags,
    Field::Number(4),
    Field::Optional(4, DATA_OFFSET_BIT),
    Field::Optional(4, FIRST_FLAGS_BIT),
    Field::Nothing,
    Field::Nothing,
    Field::Nothing,
];

fn is_set(flags: u32, bit: u32) -> bool
    ensures { result ≡ is_set flags bit }
{
    if bit == 0 {
        return false;
    }
    flags / bit % 2 == 1
}

// How many values of a flag a sample has: one, or none.
fn present_of(flags: u32, bit: u32) -> usize
    ensures { result ≡ present flags bit }
{
    if is_set(flags, bit) { 1 } else { 0 }
}

// How many values a sample has.
fn per_sample(flags: u32) -> usize
    ensures { result ≡ per_sample flags }
{
    let duration = present_of(flags, DURATION_BIT);
    let size = present_of(flags, SIZE_BIT);
    let own = present_of(flags, FLAGS_BIT);
    let composition = present_of(flags, COMPOSITION_BIT);
    duration + size + own + composition
}

// How many values n samples have.
fn cells_of(flags: u32, n: u32) -> usize
    ensures { result ≡ cells_of flags n }
{
    (n as usize) * per_sample(flags)
}

// The box, and where its entries begin.
pub fn read(part: &[u8]) -> Result<(Trun, usize), Refusal>
    ensures { result ≡ trun_of part.now }
{
    let got = short::read::by(part, KIND, ROW)?;
    let v = got.values;
    let place = got.place;
    let end = got.end;
    let trun = Trun {
        version: v[0] as u8,
        flags: v[1] as u32,
        sample_count: v[2] as u32,
        data_offset: v[3] as u32,
        first_sample_flags: v[4] as u32,
    };
    let cells = cells_of(trun.flags, trun.sample_count);
    let cut = layout::table::first_cut(&part[..end], place, cells as u64, 4);
    match cut {
        None => Ok((trun, place)),
        Some(p) => Err(Refusal::Cut(p)),
    }
}

// The entries are lent as the bytes that they have in the box; Unwritable where they are not as many as the count says.
pub fn write(trun: Trun, entries: &[u8], out: &mut [u8]) -> Result<usize, Refusal>
    ensures { wrote result out.new ≡ trun_in trun entries.now out.old }
{
    let size = cells_of(trun.flags, trun.sample_count) * 4;
    if entries.len() != size {
        return Err(Refusal::Unwritable);
    }
    let v = [
        trun.version as u64,
        trun.flags as u64,
        trun.sample_count as u64,
        trun.data_offset as u64,
        trun.first_sample_flags as u64,
        0,
        0,
        0,
    ];
    short::write::by(out, KIND, ROW, v, entries)
}

// Two's complement of 4 bytes.
fn signed_of(n: u32) -> i64
    ensures { result ≡ signed 4 n }
{
    if n < 0x8000_0000 {
        return n as i64;
    }
    -1 - ((0xffff_ffff - n) as i64)
}

// Where the run's data begin, counted from its base: before it where the offset is below 0.
pub fn offset_of(trun: Trun) -> Option<i64>
    ensures { result ≡ offset_of trun }
{
    if is_set(trun.flags, DATA_OFFSET_BIT) {
        return Some(signed_of(trun.data_offset));
    }
    None
}

// What a sample says of itself.
#[derive(Clone, Copy)]
pub struct Sample {
    pub duration: u32,
    pub size: u32,
    pub flags: u32,
    pub composition_offset: i64,
}

// A sample's value at `at`; 0 where its flag is not set.
#[tactic(auto, unfolding(numbers::specs::Field::when, numbers::specs::Field::field, crate::specs::Trun::optional))]
fn value_at(s: &[u8], flags: u32, bit: u32, at: usize) -> Result<u32, Refusal>
    ensures { result ≡ optional Err flags bit s.now at Ok }
{
    if is_set(flags, bit) {
        return numbers::read::<u32>(s, at);
    }
    Ok(0)
}

fn composition_of(version: u8, n: u32) -> i64
    ensures { result ≡ composition_of version n }
{
    if version == 0 {
        return n as i64;
    }
    signed_of(n)
}

// The i-th sample, counted from 0, of the bytes of the entries.
pub fn entry(trun: Trun, entries: &[u8], i: u32) -> Result<Sample, Refusal>
    ensures { result ≡ entry_of trun entries.now i }
{
    let set = trun.flags;
    let first = cells_of(set, i) * 4;
    let duration = value_at(entries, set, DURATION_BIT, first)?;
    let second = first + present_of(set, DURATION_BIT) * 4;
    let size = value_at(entries, set, SIZE_BIT, second)?;
    let third = second + present_of(set, SIZE_BIT) * 4;
    let own = value_at(entries, set, FLAGS_BIT, third)?;
    let fourth = third + present_of(set, FLAGS_BIT) * 4;
    let offset = value_at(entries, set, COMPOSITION_BIT, fourth)?;
    Ok(Sample {
        duration,
        size,
        flags: own,
        composition_offset: composition_of(trun.version, offset),
    })
}
