// What a track lacks: the four letters of the first needed box that is missing in it, or 0.
ghost use Rattle.std.specs.Prelude.{◌≡◌, ◌<◌, ◌≤◌, ◌+◌};
ghost use Rattle.numbers.specs.Field.{when};
ghost use Rattle.places.specs.Kinds.{trak};
ghost use Rattle.kin.specs.Kin.{boxes};
ghost use Rattle.inside.specs.Inside.{in_parent};
ghost use Rattle.needed.specs.Needed.{each, in_stbl, in_minf, in_mdia, in_trak};

use crate::parent;
use places::kinds;

fn in_stbl(
    p: usize,
    n: usize,
    starts: &[usize; 4096],
    sizes: &[usize; 4096],
    kinds: &[usize; 4096],
    parents: &[usize; 4096],
    placed: &[usize; 4096],
) -> u32
    requires { n ≤ 4096 }
    ensures { result ≡ in_stbl (boxes starts.now sizes.now kinds.now parents.now placed.now) n p }
{
    if inside::child(kinds::STSD, p, n, starts, sizes, kinds, parents, placed) == 0 {
        return kinds::STSD;
    }
    if inside::child(kinds::STTS, p, n, starts, sizes, kinds, parents, placed) == 0 {
        return kinds::STTS;
    }
    if inside::child(kinds::STSC, p, n, starts, sizes, kinds, parents, placed) == 0 {
        return kinds::STSC;
    }
    if inside::child(kinds::STSZ, p, n, starts, sizes, kinds, parents, placed) == 0 {
        return kinds::STSZ;
    }
    if inside::child(kinds::CO64, p, n, starts, sizes, kinds, parents, placed) != 0 {
        return 0;
    }
    if inside::child(kinds::STCO, p, n, starts, sizes, kinds, parents, placed) == 0 {
        return kinds::STCO;
    }
    0
}

fn in_minf(
    p: usize,
    n: usize,
    starts: &[usize; 4096],
    sizes: &[usize; 4096],
    kinds: &[usize; 4096],
    parents: &[usize; 4096],
    placed: &[usize; 4096],
) -> u32
    requires { n ≤ 4096 }
    ensures { result ≡ in_minf (boxes starts.now sizes.now kinds.now parents.now placed.now) n p }
{
    if inside::child(kinds::DINF, p, n, starts, sizes, kinds, parents, placed) == 0 {
        return kinds::DINF;
    }
    let stbl = inside::child(kinds::STBL, p, n, starts, sizes, kinds, parents, placed);
    if stbl == 0 {
        return kinds::STBL;
    }
    in_stbl(stbl, n, starts, sizes, kinds, parents, placed)
}

fn in_mdia(
    p: usize,
    n: usize,
    starts: &[usize; 4096],
    sizes: &[usize; 4096],
    kinds: &[usize; 4096],
    parents: &[usize; 4096],
    placed: &[usize; 4096],
) -> u32
    requires { n ≤ 4096 }
    ensures { result ≡ in_mdia (boxes starts.now sizes.now kinds.now parents.now placed.now) n p }
{
    if inside::child(kinds::MDHD, p, n, starts, sizes, kinds, parents, placed) == 0 {
        return kinds::MDHD;
    }
    if inside::child(kinds::HDLR, p, n, starts, sizes, kinds, parents, placed) == 0 {
        return kinds::HDLR;
    }
    let minf = inside::child(kinds::MINF, p, n, starts, sizes, kinds, parents, placed);
    if minf == 0 {
        return kinds::MINF;
    }
    in_minf(minf, n, starts, sizes, kinds, parents, placed)
}

fn in_trak(
    p: usize,
    n: usize,
    starts: &[usize; 4096],
    sizes: &[usize; 4096],
    kinds: &[usize; 4096],
    parents: &[usize; 4096],
    placed: &[usize; 4096],
) -> u32
    requires { n ≤ 4096 }
    ensures { result ≡ in_trak (boxes starts.now sizes.now kinds.now parents.now placed.now) n p }
{
    if inside::child(kinds::TKHD, p, n, starts, sizes, kinds, parents, placed) == 0 {
        return kinds::TKHD;
    }
    let mdia = inside::child(kinds::MDIA, p, n, starts, sizes, kinds, parents, placed);
    if mdia == 0 {
        return kinds::MDIA;
    }
    in_mdia(mdia, n, starts, sizes, kinds, parents, placed)
}

// What box j lacks, where it is a track of the moov.
fn trak_at(
    moov: usize,
    j: usize,
    n: usize,
    starts: &[usize; 4096],
    sizes: &[usize; 4096],
    kinds: &[usize; 4096],
    parents: &[usize; 4096],
    placed: &[usize; 4096],
) -> u32
    requires { (j < n) × (n ≤ 4096) }
    ensures { result ≡ when (in_parent (boxes starts.now sizes.now kinds.now parents.now placed.now) trak moov j) (in_trak (boxes starts.now sizes.now kinds.now parents.now placed.now) n (j + 1)) 0 }
{
    if parent::in_parent(kinds::TRAK, moov, j, starts, sizes, kinds, parents, placed) {
        return in_trak(j + 1, n, starts, sizes, kinds, parents, placed);
    }
    0
}

// What the first track lacks that lacks something.
pub(crate) fn in_traks(
    moov: usize,
    n: usize,
    starts: &[usize; 4096],
    sizes: &[usize; 4096],
    kinds: &[usize; 4096],
    parents: &[usize; 4096],
    placed: &[usize; 4096],
) -> u32
    requires { n ≤ 4096 }
    ensures { result ≡ each (boxes starts.now sizes.now kinds.now parents.now placed.now) n trak moov (in_trak (boxes starts.now sizes.now kinds.now parents.now placed.now) n) }
{
    let mut j = 0;
    while j < n {
        let kind = trak_at(moov, j, n, starts, sizes, kinds, parents, placed);
        if kind != 0 {
            return kind;
        }
        j = j + 1;
    }
    0
}
