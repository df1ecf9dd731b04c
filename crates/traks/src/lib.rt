#![tactic(auto, unfolding(numbers::specs::Field::when, numbers::specs::Field::field))]
// What the tracks of a file tell, by the boxes that are recorded in the tables. A trak is named by its row and 1.
ghost use Rattle.std.specs.Prelude.{◌≡◌, ◌<◌};
ghost use Rattle.places.specs.Kinds.{tkhd};
ghost use Rattle.keys.specs.Key.{key_of};
ghost use Rattle.kin.specs.Kin.{boxes};
ghost use Rattle.contents.specs.Held.{part_of, number_in};
ghost use Rattle.inside.specs.Inside.{child};
ghost use Rattle.traks.specs.Traks.{next_trak, number_of, span_in, boxes_in, tables_of};

use numbers::Refusal;
use places::kinds;
use stbl::Boxes;

// The first trak of the moov from row `from` on, of n recorded boxes: its row and 1, which is the row to go on from; 0
// where there is none.
pub fn next(
    from: usize,
    n: usize,
    starts: &[usize; 4096],
    sizes: &[usize; 4096],
    kinds: &[usize; 4096],
    parents: &[usize; 4096],
    placed: &[usize; 4096],
) -> usize
    ensures { result ≡ next_trak (boxes starts.now sizes.now kinds.now parents.now placed.now) n from }
{
    let moov = inside::child(kinds::MOOV, 0, n, starts, sizes, kinds, parents, placed);
    inside::next(
        kinds::TRAK,
        moov,
        from,
        n,
        starts,
        sizes,
        kinds,
        parents,
        placed,
    )
}

// The number in the tkhd in row j, or 0.
fn number_at(
    s: &[u8],
    j: usize,
    starts: &[usize; 4096],
    sizes: &[usize; 4096],
    kinds: &[usize; 4096],
    parents: &[usize; 4096],
    placed: &[usize; 4096],
) -> u32
    requires { j < 4096 }
    ensures { result ≡ number_in (key_of tkhd (part_of s.now (boxes starts.now sizes.now kinds.now parents.now placed.now) j)) }
{
    match keys::find(kinds::TKHD, parts::part(s, starts[j], sizes[j])) {
        None => 0,
        Some((x, _)) => x as u32,
    }
}

// The number of a track.
pub fn number(
    s: &[u8],
    trak: usize,
    n: usize,
    starts: &[usize; 4096],
    sizes: &[usize; 4096],
    kinds: &[usize; 4096],
    parents: &[usize; 4096],
    placed: &[usize; 4096],
) -> u32
    ensures { result ≡ number_of s.now (boxes starts.now sizes.now kinds.now parents.now placed.now) n trak }
{
    let head = inside::child(kinds::TKHD, trak, n, starts, sizes, kinds, parents, placed);
    if head == 0 {
        return 0;
    }
    number_at(s, head - 1, starts, sizes, kinds, parents, placed)
}

// Where the first box of a type in the parent p lies.
fn span_of(
    kind: u32,
    p: usize,
    n: usize,
    starts: &[usize; 4096],
    sizes: &[usize; 4096],
    kinds: &[usize; 4096],
    parents: &[usize; 4096],
    placed: &[usize; 4096],
) -> Option<(usize, usize)>
    ensures { result ≡ span_in (boxes starts.now sizes.now kinds.now parents.now placed.now) (child (boxes starts.now sizes.now kinds.now parents.now placed.now) n kind p) }
{
    let row = inside::child(kind, p, n, starts, sizes, kinds, parents, placed);
    if row == 0 {
        return None;
    }
    Some((starts[row - 1], sizes[row - 1]))
}

fn boxes_in(
    p: usize,
    n: usize,
    starts: &[usize; 4096],
    sizes: &[usize; 4096],
    kinds: &[usize; 4096],
    parents: &[usize; 4096],
    placed: &[usize; 4096],
) -> Boxes
    ensures { result ≡ boxes_in (boxes starts.now sizes.now kinds.now parents.now placed.now) n p }
{
    Boxes {
        stts: span_of(kinds::STTS, p, n, starts, sizes, kinds, parents, placed),
        ctts: span_of(kinds::CTTS, p, n, starts, sizes, kinds, parents, placed),
        stsc: span_of(kinds::STSC, p, n, starts, sizes, kinds, parents, placed),
        stsz: span_of(kinds::STSZ, p, n, starts, sizes, kinds, parents, placed),
        stco: span_of(kinds::STCO, p, n, starts, sizes, kinds, parents, placed),
        co64: span_of(kinds::CO64, p, n, starts, sizes, kinds, parents, placed),
        stss: span_of(kinds::STSS, p, n, starts, sizes, kinds, parents, placed),
    }
}

// The sample tables of a track, or the first fault.
pub fn tables(
    s: &[u8],
    trak: usize,
    n: usize,
    starts: &[usize; 4096],
    sizes: &[usize; 4096],
    kinds: &[usize; 4096],
    parents: &[usize; 4096],
    placed: &[usize; 4096],
) -> Result<tables::Track, Refusal>
    ensures { result ≡ tables_of s.now (boxes starts.now sizes.now kinds.now parents.now placed.now) n trak }
{
    let mdia = inside::child(kinds::MDIA, trak, n, starts, sizes, kinds, parents, placed);
    let minf = inside::child(kinds::MINF, mdia, n, starts, sizes, kinds, parents, placed);
    let p = inside::child(kinds::STBL, minf, n, starts, sizes, kinds, parents, placed);
    let lie = boxes_in(p, n, starts, sizes, kinds, parents, placed);
    stbl::track(s, lie)
}
