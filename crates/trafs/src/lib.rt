#![tactic(auto, unfolding(numbers::specs::Field::when, numbers::specs::Field::field))]
// The run of a traf, by its boxes that are recorded in the tables. A box is named by its row and 1; 0 names none.
ghost use Rattle.std.specs.Prelude.{◌≡◌};
ghost use Rattle.places.specs.Kinds.{tfhd, tfdt};
ghost use Rattle.kin.specs.Kin.{boxes};
ghost use Rattle.inside.specs.Inside.{child};
ghost use Rattle.tfhd.specs.Tfhd.{tfhd_of};
ghost use Rattle.tfdt.specs.Tfdt.{tfdt_of};
ghost use Rattle.trafs.specs.Trafs.{of_box, bytes_of, trex_by, lacking, run_of};

use numbers::Refusal;
use places::kinds;

const LAST: usize = 0xffff_ffff_ffff_ffff;

// What a column of the tables says of the box that is named p, or 0.
pub fn of_box(column: &[usize; 4096], p: usize) -> usize
    ensures { result ≡ of_box column.now p }
{
    if p == 0 {
        return 0;
    }
    if 4096 < p {
        return 0;
    }
    column[p - 1]
}

// The trex of a track, read.
fn defaults(
    s: &[u8],
    n: usize,
    track: u32,
    starts: &[usize; 4096],
    sizes: &[usize; 4096],
    kinds: &[usize; 4096],
    parents: &[usize; 4096],
    placed: &[usize; 4096],
) -> Result<trex::Trex, Refusal>
    ensures { result ≡ trex_by s.now (boxes starts.now sizes.now kinds.now parents.now placed.now) n track }
{
    let p = needed::moofs::trex_of(s, track as u64, n, starts, sizes, kinds, parents, placed);
    trex::read(parts::part(s, of_box(starts, p), of_box(sizes, p)))
}

// The tfhd of a traf, read.
fn head(
    s: &[u8],
    n: usize,
    traf: usize,
    starts: &[usize; 4096],
    sizes: &[usize; 4096],
    kinds: &[usize; 4096],
    parents: &[usize; 4096],
    placed: &[usize; 4096],
) -> Result<tfhd::Tfhd, Refusal>
    ensures { result ≡ tfhd_of (bytes_of s.now (boxes starts.now sizes.now kinds.now parents.now placed.now) (child (boxes starts.now sizes.now kinds.now parents.now placed.now) n tfhd traf)) }
{
    let p = inside::child(kinds::TFHD, traf, n, starts, sizes, kinds, parents, placed);
    tfhd::read(parts::part(s, of_box(starts, p), of_box(sizes, p)))
}

// The tfdt of a traf, read.
fn time(
    s: &[u8],
    n: usize,
    traf: usize,
    starts: &[usize; 4096],
    sizes: &[usize; 4096],
    kinds: &[usize; 4096],
    parents: &[usize; 4096],
    placed: &[usize; 4096],
) -> Result<tfdt::Tfdt, Refusal>
    ensures { result ≡ tfdt_of (bytes_of s.now (boxes starts.now sizes.now kinds.now parents.now placed.now) (child (boxes starts.now sizes.now kinds.now parents.now placed.now) n tfdt traf)) }
{
    let p = inside::child(kinds::TFDT, traf, n, starts, sizes, kinds, parents, placed);
    tfdt::read(parts::part(s, of_box(starts, p), of_box(sizes, p)))
}

// A needed box of the traf is missing, or is not read.
fn lacking(
    traf: usize,
    starts: &[usize; 4096],
    sizes: &[usize; 4096],
    kinds: &[usize; 4096],
    parents: &[usize; 4096],
    placed: &[usize; 4096],
) -> Result<runs::Run, Refusal>
    ensures { result ≡ lacking (boxes starts.now sizes.now kinds.now parents.now placed.now) traf }
{
    Err(Refusal::Value(of_box(starts, traf)))
}

// The run of the traf of that name, in a moof that begins at `moof`: whether it is the first there, and where the data of
// the traf before end.
pub fn run(
    s: &[u8],
    n: usize,
    traf: usize,
    starts: &[usize; 4096],
    sizes: &[usize; 4096],
    kinds: &[usize; 4096],
    parents: &[usize; 4096],
    placed: &[usize; 4096],
    moof: u64,
    first: bool,
    previous: u64,
) -> Result<runs::Run, Refusal>
    ensures { result ≡ run_of s.now (boxes starts.now sizes.now kinds.now parents.now placed.now) n traf moof first previous }
{
    let Ok(h) = head(s, n, traf, starts, sizes, kinds, parents, placed) else {
        return lacking(traf, starts, sizes, kinds, parents, placed);
    };
    let track = h.track_id;
    let Ok(x) = defaults(s, n, track, starts, sizes, kinds, parents, placed) else {
        return lacking(traf, starts, sizes, kinds, parents, placed);
    };
    let Ok(d) = time(s, n, traf, starts, sizes, kinds, parents, placed) else {
        return lacking(traf, starts, sizes, kinds, parents, placed);
    };
    let p = inside::child(kinds::TRUN, traf, n, starts, sizes, kinds, parents, placed);
    let start = of_box(starts, p);
    let Ok((m, place)) = trun::read(parts::part(s, start, of_box(sizes, p))) else {
        return lacking(traf, starts, sizes, kinds, parents, placed);
    };
    if LAST - start < place {
        return Err(Refusal::Overflow);
    }
    let base = runstarts::base(h, moof, first, previous);
    runstarts::make(h, x, d, m, start + place, base)
}
