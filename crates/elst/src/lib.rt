#![tactic(auto, unfolding(numbers::specs::Field::when, numbers::specs::Field::field))]
// The edit list (ISO/IEC 14496-12, 8.6.6): a count, and as many edits, with times of 4 bytes in version 0 and of 8 in
// version 1. A media time of -1 is an empty edit; below it is 8.
ghost use Rattle.std.specs.Prelude.{◌≡◌, ◌*◌, Ok, Err};
ghost use Rattle.put.specs.Put.{wrote};
ghost use Rattle.numbers.specs.Field.{field};
ghost use Rattle.signed.specs.Signed.{signed};
ghost use Rattle.elst.specs.Elst.{elst_of, elst_in, cells, width, edit, entry_of};

use layout::Field;
use numbers::Refusal;
use rows::Cell;

#[derive(Clone, Copy)]
pub struct Elst {
    pub version: u8,
    pub flags: u32,
    pub count: u32,
}

pub const KIND: u32 = 0x656c7374;

pub const ROW: [Field; 8] = [
    Field::Version(0, 1),
    Field::Flags,
    Field::Number(4),
    Field::Nothing,
    Field::Nothing,
    Field::Nothing,
    Field::Nothing,
    Field::Nothing,
];

// An edit: its duration, its media time, and the whole and the part of its rate.
const NARROW: [Cell; 4] = [Cell::Any(4), Cell::Time(4), Cell::Any(2), Cell::Any(2)];

const WIDE: [Cell; 4] = [Cell::Any(8), Cell::Time(8), Cell::Any(2), Cell::Any(2)];

fn cells_of(version: u8) -> [Cell; 4]
    ensures { result ≡ cells version }
{
    if version == 1 { WIDE } else { NARROW }
}

// How many bytes a time has.
fn width_of(version: u8) -> usize
    ensures { result ≡ width version }
{
    if version == 1 { 8 } else { 4 }
}

// How many bytes n edits have.
fn bytes_of(version: u8, n: u32) -> usize
    ensures { result ≡ n * edit version }
{
    (n as usize) * (width_of(version) * 2 + 4)
}

// The box, and where its entries begin.
pub fn read(part: &[u8]) -> Result<(Elst, usize), Refusal>
    ensures { result ≡ elst_of part.now }
{
    let got = short::read::by(part, KIND, ROW)?;
    let v = got.values;
    let place = got.place;
    let end = got.end;
    let elst = Elst {
        version: v[0] as u8,
        flags: v[1] as u32,
        count: v[2] as u32,
    };
    let () = rows::judge(&part[..end], place, elst.count, cells_of(elst.version))?;
    Ok((elst, place))
}

// The entries are lent as the bytes that they have in the box; 13 where they are not as many as the count says, or
// where the reader would refuse one.
pub fn write(elst: Elst, entries: &[u8], out: &mut [u8]) -> Result<usize, Refusal>
    ensures { wrote result out.new ≡ elst_in elst entries.now out.old }
{
    let size = bytes_of(elst.version, elst.count);
    if entries.len() != size {
        return Err(Refusal::Unwritable);
    }
    let Ok(()) = rows::judge(entries, 0, elst.count, cells_of(elst.version)) else {
        return Err(Refusal::Unwritable);
    };
    let v = [
        elst.version as u64,
        elst.flags as u64,
        elst.count as u64,
        0,
        0,
        0,
        0,
        0,
    ];
    short::write::by(out, KIND, ROW, v, entries)
}

#[derive(Clone, Copy)]
pub struct Edit {
    pub segment_duration: u64,
    pub media_time: i64,
    pub media_rate: i16,
    pub media_rate_fraction: i16,
}

fn duration_at(s: &[u8], version: u8, at: usize) -> Result<u64, Refusal>
    ensures { result ≡ field Err (width version) s.now at Ok }
{
    if version == 1 {
        return numbers::read::<u64>(s, at);
    }
    let n = numbers::read::<u32>(s, at)?;
    Ok(n as u64)
}

fn time_at(s: &[u8], version: u8, at: usize) -> Result<i64, Refusal>
    ensures { result ≡ field Err (width version) s.now at (λ n. Ok (signed (width version) n)) }
{
    if version == 1 {
        return signed::read::<i64>(s, at);
    }
    let n = signed::read::<i32>(s, at)?;
    Ok(n as i64)
}

// The i-th edit, counted from 0, of the bytes of the entries.
pub fn entry(entries: &[u8], version: u8, i: u32) -> Result<Edit, Refusal>
    ensures { result ≡ entry_of entries.now version i }
{
    let w = width_of(version);
    let first = bytes_of(version, i);
    let Ok(duration) = duration_at(entries, version, first) else {
        return Err(Refusal::Cut(first));
    };
    let second = first + w;
    let Ok(time) = time_at(entries, version, second) else {
        return Err(Refusal::Cut(second));
    };
    let third = second + w;
    let rate = signed::read::<i16>(entries, third)?;
    let fourth = third + 2;
    let fraction = signed::read::<i16>(entries, fourth)?;
    Ok(Edit {
        segment_duration: duration,
        media_time: time,
        media_rate: rate,
        media_rate_fraction: fraction,
    })
}
