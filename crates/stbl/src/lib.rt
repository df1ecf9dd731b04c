#![tactic(auto, unfolding(numbers::specs::Field::when, numbers::specs::Field::field))]
// The box of sample tables (ISO/IEC 14496-12, 8.5.1): the tables of a track, from the boxes that hold them. Each box is
// read by its own reader, in the bytes that it has in the file. The boxes are read in the order in which they stand
// below, wherever they lie: the first fault in file order is for the file's parse to tell.
ghost use Rattle.std.specs.Prelude.{◌≡◌};
ghost use Rattle.stbl.specs.Stbl.{entries_at, stts_at, ctts_at, stsc_at, stsz_at, stco_at, co64_at, stss_at};
ghost use Rattle.stbl.specs.Stbl.{later_of, chunks_at, read_all, fault_in, missing, first_wrong, faults, lacks};
ghost use Rattle.stbl.specs.Stbl.{entries_in, table_in, optional_in, is_there, built, track_of};

use numbers::Refusal;
use places::kinds;
use tables::{Chunks, Sizes, Table, Track};

// Where the boxes of a track's tables lie.
#[derive(Clone, Copy)]
pub struct Boxes {
    pub stts: Option<(usize, usize)>,
    pub ctts: Option<(usize, usize)>,
    pub stsc: Option<(usize, usize)>,
    pub stsz: Option<(usize, usize)>,
    pub stco: Option<(usize, usize)>,
    pub co64: Option<(usize, usize)>,
    pub stss: Option<(usize, usize)>,
}

// What was read of a table's box: where its entries lie in the file, how many there are, and the size that all samples
// have in common, 0 in all boxes but stsz.
#[derive(Clone, Copy)]
struct Entries {
    pub at: usize,
    pub count: u32,
    pub common: u32,
}

// The last position that there is.
const LAST: usize = 0xFFFF_FFFF_FFFF_FFFF;

// Entries that begin at `place` of a box that begins at `start`.
fn entries_at(
    start: usize,
    place: usize,
    count: u32,
    common: u32,
) -> Result<Option<Entries>, Refusal>
    ensures { result ≡ entries_at start place count common }
{
    if LAST - start < place {
        return Err(Refusal::Overflow);
    }
    Ok(Some(Entries {
        at: start + place,
        count,
        common,
    }))
}

fn stts_at(file: &[u8], span: Option<(usize, usize)>) -> Result<Option<Entries>, Refusal>
    ensures { result ≡ stts_at file.now span }
{
    let Some((start, size)) = span else {
        return Ok(None);
    };
    match stts::read(parts::part(file, start, size)) {
        Ok((m, place)) => entries_at(start, place, m.count, 0),
        Err(q) => Err(q.moved(start)),
    }
}

fn ctts_at(file: &[u8], span: Option<(usize, usize)>) -> Result<Option<Entries>, Refusal>
    ensures { result ≡ ctts_at file.now span }
{
    let Some((start, size)) = span else {
        return Ok(None);
    };
    match ctts::read(parts::part(file, start, size)) {
        Ok((m, place)) => entries_at(start, place, m.count, 0),
        Err(q) => Err(q.moved(start)),
    }
}

fn stsc_at(file: &[u8], span: Option<(usize, usize)>) -> Result<Option<Entries>, Refusal>
    ensures { result ≡ stsc_at file.now span }
{
    let Some((start, size)) = span else {
        return Ok(None);
    };
    match stsc::read(parts::part(file, start, size)) {
        Ok((m, place)) => entries_at(start, place, m.count, 0),
        Err(q) => Err(q.moved(start)),
    }
}

fn stsz_at(file: &[u8], span: Option<(usize, usize)>) -> Result<Option<Entries>, Refusal>
    ensures { result ≡ stsz_at file.now span }
{
    let Some((start, size)) = span else {
        return Ok(None);
    };
    match stsz::read(parts::part(file, start, size)) {
        Ok((m, place)) => entries_at(start, place, m.count, m.sample_size),
        Err(q) => Err(q.moved(start)),
    }
}

fn stco_at(file: &[u8], span: Option<(usize, usize)>) -> Result<Option<Entries>, Refusal>
    ensures { result ≡ stco_at file.now span }
{
    let Some((start, size)) = span else {
        return Ok(None);
    };
    match stco::read(parts::part(file, start, size)) {
        Ok((m, place)) => entries_at(start, place, m.count, 0),
        Err(q) => Err(q.moved(start)),
    }
}

fn co64_at(file: &[u8], span: Option<(usize, usize)>) -> Result<Option<Entries>, Refusal>
    ensures { result ≡ co64_at file.now span }
{
    let Some((start, size)) = span else {
        return Ok(None);
    };
    match co64::read(parts::part(file, start, size)) {
        Ok((m, place)) => entries_at(start, place, m.count, 0),
        Err(q) => Err(q.moved(start)),
    }
}

fn stss_at(file: &[u8], span: Option<(usize, usize)>) -> Result<Option<Entries>, Refusal>
    ensures { result ≡ stss_at file.now span }
{
    let Some((start, size)) = span else {
        return Ok(None);
    };
    match stss::read(parts::part(file, start, size)) {
        Ok((m, place)) => entries_at(start, place, m.count, 0),
        Err(q) => Err(q.moved(start)),
    }
}

fn later(a: usize, b: usize) -> usize
    ensures { result ≡ later_of a b }
{
    if a < b { b } else { a }
}

// The chunks: one box of the two. Where both are there, none is read.
fn chunks_at(
    file: &[u8],
    stco: Option<(usize, usize)>,
    co64: Option<(usize, usize)>,
) -> Result<Option<Entries>, Refusal>
    ensures { result ≡ chunks_at file.now stco co64 }
{
    let Some((narrow, _)) = stco else {
        return co64_at(file, co64);
    };
    let Some((wide, _)) = co64 else {
        return stco_at(file, stco);
    };
    Err(Refusal::Twice(later(narrow, wide)))
}

// All that is read. Fields in the order in which the first fault wins.
#[derive(Clone, Copy)]
struct Readings {
    pub stts: Result<Option<Entries>, Refusal>,
    pub ctts: Result<Option<Entries>, Refusal>,
    pub stsc: Result<Option<Entries>, Refusal>,
    pub stsz: Result<Option<Entries>, Refusal>,
    pub chunks: Result<Option<Entries>, Refusal>,
    pub stss: Result<Option<Entries>, Refusal>,
}

fn read_all(file: &[u8], boxes: Boxes) -> Readings
    ensures { result ≡ read_all file.now boxes }
{
    let stts = boxes.stts;
    let ctts = boxes.ctts;
    let stsc = boxes.stsc;
    let stsz = boxes.stsz;
    let stco = boxes.stco;
    let co64 = boxes.co64;
    let stss = boxes.stss;
    Readings {
        stts: stts_at(file, stts),
        ctts: ctts_at(file, ctts),
        stsc: stsc_at(file, stsc),
        stsz: stsz_at(file, stsz),
        chunks: chunks_at(file, stco, co64),
        stss: stss_at(file, stss),
    }
}

fn fault_in(r: Result<Option<Entries>, Refusal>) -> Result<(), Refusal>
    ensures { result ≡ fault_in r }
{
    r?;
    Ok(())
}

fn missing(r: Result<Option<Entries>, Refusal>, kind: u32) -> Result<(), Refusal>
    ensures { result ≡ missing kind r }
{
    match r {
        Ok(None) => Err(Refusal::Missing(kind)),
        Ok(Some(_)) | Err(_) => Ok(()),
    }
}

fn first_wrong(a: Result<(), Refusal>, b: Result<(), Refusal>) -> Result<(), Refusal>
    ensures { result ≡ first_wrong a b }
{
    a?;
    b
}

// The first fault that a reader tells.
fn faults(r: Readings) -> Result<(), Refusal>
    ensures { result ≡ faults r }
{
    let stts = r.stts;
    let ctts = r.ctts;
    let stsc = r.stsc;
    let stsz = r.stsz;
    let chunks = r.chunks;
    let stss = r.stss;
    let last = first_wrong(fault_in(chunks), fault_in(stss));
    let third = first_wrong(fault_in(stsc), first_wrong(fault_in(stsz), last));
    first_wrong(fault_in(stts), first_wrong(fault_in(ctts), third))
}

// The first of the needed boxes that is missing.
fn lacks(r: Readings) -> Result<(), Refusal>
    ensures { result ≡ lacks r }
{
    let stts = r.stts;
    let stsc = r.stsc;
    let stsz = r.stsz;
    let chunks = r.chunks;
    let last = first_wrong(missing(stsz, kinds::STSZ), missing(chunks, kinds::STCO));
    first_wrong(
        missing(stts, kinds::STTS),
        first_wrong(missing(stsc, kinds::STSC), last),
    )
}

fn entries_in(r: Result<Option<Entries>, Refusal>) -> Entries
    ensures { result ≡ entries_in r }
{
    match r {
        Ok(Some(e)) => e,
        Ok(None) | Err(_) => Entries {
            at: 0,
            count: 0,
            common: 0,
        },
    }
}

fn table_in(r: Result<Option<Entries>, Refusal>) -> Table
    ensures { result ≡ table_in r }
{
    let e = entries_in(r);
    Table {
        at: e.at,
        count: e.count,
    }
}

fn optional_in(r: Result<Option<Entries>, Refusal>) -> Option<Table>
    ensures { result ≡ optional_in r }
{
    match r {
        Ok(Some(e)) => Some(Table {
            at: e.at,
            count: e.count,
        }),
        Ok(None) | Err(_) => None,
    }
}

fn is_there(span: Option<(usize, usize)>) -> bool
    ensures { result ≡ is_there span }
{
    span.is_some()
}

fn built(r: Readings, wide: bool) -> Track
    ensures { result ≡ built r wide }
{
    let stts = r.stts;
    let ctts = r.ctts;
    let stsc = r.stsc;
    let stsz = r.stsz;
    let chunks = r.chunks;
    let stss = r.stss;
    let sizes = entries_in(stsz);
    let offsets = entries_in(chunks);
    Track {
        stts: table_in(stts),
        ctts: optional_in(ctts),
        stsc: table_in(stsc),
        stsz: Sizes {
            at: sizes.at,
            count: sizes.count,
            common: sizes.common,
        },
        stco: Chunks {
            at: offsets.at,
            count: offsets.count,
            wide,
        },
        stss: optional_in(stss),
    }
}

// The tables of the track whose boxes lie there in the file.
pub fn track(file: &[u8], boxes: Boxes) -> Result<Track, Refusal>
    ensures { result ≡ track_of file.now boxes }
{
    let all = read_all(file, boxes);
    let wide = boxes.co64;
    first_wrong(faults(all), lacks(all))?;
    Ok(built(all, is_there(wide)))
}
