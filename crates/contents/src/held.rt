// The numbers in boxes that are held against other boxes.
ghost use Rattle.std.specs.Prelude.{◌≡◌, ◌&&◌, ◌+◌, ◌<◌, min, eqb, ltb};
ghost use Rattle.places.specs.Kinds.{tfhd};
ghost use Rattle.places.specs.Visit.{box_limit};
ghost use Rattle.kin.specs.Before.{sum};
ghost use Rattle.kin.specs.Kin.{boxes, at, stands};
ghost use Rattle.contents.specs.Held.{sample_limit, key_at, number_in, is, used, track_of, run_of, total, refusal_of};

use numbers::Refusal;
use places::kinds;

// How many samples a track may have.
pub const SAMPLES: u64 = 65536;

// The number of box j. A type is a number of four bytes; the tables have room for more.
pub(crate) fn key_at(
    s: &[u8],
    j: usize,
    starts: &[usize; 4096],
    sizes: &[usize; 4096],
    kinds: &[usize; 4096],
    parents: &[usize; 4096],
    placed: &[usize; 4096],
) -> Option<(u64, usize)>
    requires { j < 4096 }
    ensures { result ≡ key_at s.now (boxes starts.now sizes.now kinds.now parents.now placed.now) j }
{
    let kind = kinds[j];
    if 0xffff_ffff < kind {
        return None;
    }
    keys::find(kind as u32, parts::part(s, starts[j], sizes[j]))
}

fn number_in(key: Option<(u64, usize)>) -> u64
    ensures { result ≡ number_in key }
{
    match key {
        None => 0,
        Some((x, _)) => x,
    }
}

fn is(key: Option<(u64, usize)>, n: u64) -> bool
    ensures { result ≡ is key n }
{
    match key {
        None => false,
        Some((x, _)) => x == n,
    }
}

fn stands(
    kind: usize,
    j: usize,
    starts: &[usize; 4096],
    sizes: &[usize; 4096],
    kinds: &[usize; 4096],
    parents: &[usize; 4096],
    placed: &[usize; 4096],
) -> bool
    requires { j < 4096 }
    ensures { result ≡ stands (boxes starts.now sizes.now kinds.now parents.now placed.now) kind j }
{
    (placed[j] == 1) & (kinds[j] == kind)
}

// Whether box j stands in its place, is of this type and has this number.
fn has_number(
    s: &[u8],
    kind: usize,
    x: u64,
    j: usize,
    starts: &[usize; 4096],
    sizes: &[usize; 4096],
    kinds: &[usize; 4096],
    parents: &[usize; 4096],
    placed: &[usize; 4096],
) -> bool
    requires { j < 4096 }
    ensures { result ≡ ◌&&◌ (stands (boxes starts.now sizes.now kinds.now parents.now placed.now) kind j) (is (key_at s.now (boxes starts.now sizes.now kinds.now parents.now placed.now) j) x) }
{
    if stands(kind, j, starts, sizes, kinds, parents, placed) {
        return is(key_at(s, j, starts, sizes, kinds, parents, placed), x);
    }
    false
}

fn used(
    s: &[u8],
    kind: usize,
    x: u64,
    i: usize,
    starts: &[usize; 4096],
    sizes: &[usize; 4096],
    kinds: &[usize; 4096],
    parents: &[usize; 4096],
    placed: &[usize; 4096],
) -> bool
    requires { i < 4096 }
    ensures { result ≡ used s.now (boxes starts.now sizes.now kinds.now parents.now placed.now) kind x i }
{
    let mut j = 0;
    while j < i {
        if has_number(s, kind, x, j, starts, sizes, kinds, parents, placed) {
            return true;
        }
        j = j + 1;
    }
    false
}

fn rows(n: usize) -> usize
    ensures { result ≡ min n box_limit }
{
    if n < 4096 { n } else { 4096 }
}

// Whether box k is the tfhd of the parent p.
fn heads(
    p: usize,
    k: usize,
    starts: &[usize; 4096],
    sizes: &[usize; 4096],
    kinds: &[usize; 4096],
    parents: &[usize; 4096],
    placed: &[usize; 4096],
) -> bool
    requires { k < 4096 }
    ensures { result ≡ ◌&&◌ (eqb (at parents.now k) p) (stands (boxes starts.now sizes.now kinds.now parents.now placed.now) tfhd k) }
{
    if parents[k] == p {
        return stands(
            kinds::TFHD as usize,
            k,
            starts,
            sizes,
            kinds,
            parents,
            placed,
        );
    }
    false
}

// The track of box j in its traf, where n boxes are recorded; 0 where it is not known.
fn track_of(
    s: &[u8],
    n: usize,
    j: usize,
    starts: &[usize; 4096],
    sizes: &[usize; 4096],
    kinds: &[usize; 4096],
    parents: &[usize; 4096],
    placed: &[usize; 4096],
) -> u64
    requires { j < 4096 }
    ensures { result ≡ track_of s.now (boxes starts.now sizes.now kinds.now parents.now placed.now) n j }
{
    let end = rows(n);
    let p = parents[j];
    let mut k = p;
    while k < end {
        if parents[k] < p {
            return 0;
        }
        if heads(p, k, starts, sizes, kinds, parents, placed) {
            return number_in(key_at(s, k, starts, sizes, kinds, parents, placed));
        }
        k = k + 1;
    }
    0
}

// How many samples box j adds to a track.
fn run_of(
    s: &[u8],
    n: usize,
    track: u64,
    j: usize,
    starts: &[usize; 4096],
    sizes: &[usize; 4096],
    kinds: &[usize; 4096],
    parents: &[usize; 4096],
    placed: &[usize; 4096],
) -> u64
    requires { j < 4096 }
    ensures { result ≡ run_of s.now (boxes starts.now sizes.now kinds.now parents.now placed.now) n track j }
{
    if stands(
        kinds::TRUN as usize,
        j,
        starts,
        sizes,
        kinds,
        parents,
        placed,
    ) {
        if track_of(s, n, j, starts, sizes, kinds, parents, placed) == track {
            return number_in(key_at(s, j, starts, sizes, kinds, parents, placed));
        }
        return 0;
    }
    0
}

// Whether the runs of a track before box i and this many samples pass the limit. No sum passes it by more than one run.
fn pass(
    s: &[u8],
    n: usize,
    track: u64,
    count: u64,
    i: usize,
    starts: &[usize; 4096],
    sizes: &[usize; 4096],
    kinds: &[usize; 4096],
    parents: &[usize; 4096],
    placed: &[usize; 4096],
) -> bool
    requires { i < 4096 }
    ensures { result ≡ ltb sample_limit (sum (run_of s.now (boxes starts.now sizes.now kinds.now parents.now placed.now) n track) i + count) }
{
    if SAMPLES < count {
        return true;
    }
    let mut all = count;
    let mut j = 0;
    while j < i {
        let more = run_of(s, n, track, j, starts, sizes, kinds, parents, placed);
        if SAMPLES - all < more {
            return true;
        }
        all = all + more;
        j = j + 1;
    }
    false
}

// Whether a run of so many samples is too long for its track.
fn too_long(
    s: &[u8],
    n: usize,
    count: u64,
    i: usize,
    starts: &[usize; 4096],
    sizes: &[usize; 4096],
    kinds: &[usize; 4096],
    parents: &[usize; 4096],
    placed: &[usize; 4096],
) -> bool
    requires { i < 4096 }
    ensures { result ≡ ltb sample_limit (total s.now (boxes starts.now sizes.now kinds.now parents.now placed.now) n i count) }
{
    let track = track_of(s, n, i, starts, sizes, kinds, parents, placed);
    if track == 0 {
        return SAMPLES < count;
    }
    pass(s, n, track, count, i, starts, sizes, kinds, parents, placed)
}

// The refusal of box i for its number x, which stands at p in it.
pub(crate) fn refusal_of(
    s: &[u8],
    n: usize,
    i: usize,
    x: u64,
    p: usize,
    starts: &[usize; 4096],
    sizes: &[usize; 4096],
    kinds: &[usize; 4096],
    parents: &[usize; 4096],
    placed: &[usize; 4096],
) -> Option<Refusal>
    requires { i < 4096 }
    ensures { result ≡ refusal_of s.now (boxes starts.now sizes.now kinds.now parents.now placed.now) n i x p }
{
    let kind = kinds[i];
    if kind == kinds::TKHD as usize {
        let known = used(
            s,
            kinds::TKHD as usize,
            x,
            i,
            starts,
            sizes,
            kinds,
            parents,
            placed,
        );
        return known.then_some(Refusal::Value(p));
    }
    if kind == kinds::TFHD as usize {
        let known = used(
            s,
            kinds::TKHD as usize,
            x,
            i,
            starts,
            sizes,
            kinds,
            parents,
            placed,
        );
        return (!known).then_some(Refusal::Value(p));
    }
    if kind == kinds::TREX as usize {
        let second = used(
            s,
            kinds::TREX as usize,
            x,
            i,
            starts,
            sizes,
            kinds,
            parents,
            placed,
        );
        // It is told at its first byte.
        return second.then_some(Refusal::Twice(0));
    }
    if kind == kinds::STSZ as usize {
        return (SAMPLES < x).then_some(Refusal::Limit(p));
    }
    if kind == kinds::TRUN as usize {
        let long = too_long(s, n, x, i, starts, sizes, kinds, parents, placed);
        return long.then_some(Refusal::Limit(p));
    }
    if kind == kinds::URL as usize {
        return (x % 2 != 1).then_some(Refusal::Value(p));
    }
    None
}
