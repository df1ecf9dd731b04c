// What a fragment lacks: the four letters of the first needed box that is missing in it, or 0.
ghost use Rattle.std.specs.Prelude.{◌≡◌, ◌<◌, ◌≤◌, ◌+◌, min};
ghost use Rattle.numbers.specs.Field.{when};
ghost use Rattle.places.specs.Kinds.{moof, trex, traf};
ghost use Rattle.places.specs.Visit.{box_limit};
ghost use Rattle.keys.specs.Key.{key_of};
ghost use Rattle.kin.specs.Kin.{boxes, stands};
ghost use Rattle.contents.specs.Held.{part_of, is};
ghost use Rattle.inside.specs.Inside.{in_parent};
ghost use Rattle.needed.specs.Needed.{each, track_of, extends, trex_of, in_traf, in_moof};

use crate::parent;
use places::kinds;

// The track that the tfhd in row j names, or 0.
fn track_of(
    s: &[u8],
    j: usize,
    starts: &[usize; 4096],
    sizes: &[usize; 4096],
    kinds: &[usize; 4096],
    parents: &[usize; 4096],
    placed: &[usize; 4096],
) -> u64
    requires { j < 4096 }
    ensures { result ≡ track_of s.now (boxes starts.now sizes.now kinds.now parents.now placed.now) j }
{
    match keys::find(kinds::TFHD, parts::part(s, starts[j], sizes[j])) {
        None => 0,
        Some((x, _)) => x,
    }
}

fn is_trex(
    j: usize,
    starts: &[usize; 4096],
    sizes: &[usize; 4096],
    kinds: &[usize; 4096],
    parents: &[usize; 4096],
    placed: &[usize; 4096],
) -> bool
    requires { j < 4096 }
    ensures { result ≡ stands (boxes starts.now sizes.now kinds.now parents.now placed.now) trex j }
{
    (placed[j] == 1) & (kinds[j] == kinds::TREX as usize)
}

// Whether the trex in row j names this track.
fn names(
    s: &[u8],
    track: u64,
    j: usize,
    starts: &[usize; 4096],
    sizes: &[usize; 4096],
    kinds: &[usize; 4096],
    parents: &[usize; 4096],
    placed: &[usize; 4096],
) -> bool
    requires { j < 4096 }
    ensures { result ≡ is (key_of trex (part_of s.now (boxes starts.now sizes.now kinds.now parents.now placed.now) j)) track }
{
    match keys::find(kinds::TREX, parts::part(s, starts[j], sizes[j])) {
        None => false,
        Some((x, _)) => x == track,
    }
}

// Whether box j is the trex of this track.
fn extends(
    s: &[u8],
    track: u64,
    j: usize,
    starts: &[usize; 4096],
    sizes: &[usize; 4096],
    kinds: &[usize; 4096],
    parents: &[usize; 4096],
    placed: &[usize; 4096],
) -> bool
    requires { j < 4096 }
    ensures { result ≡ extends s.now (boxes starts.now sizes.now kinds.now parents.now placed.now) track j }
{
    if is_trex(j, starts, sizes, kinds, parents, placed) {
        return names(s, track, j, starts, sizes, kinds, parents, placed);
    }
    false
}

// The trex of a track among n recorded boxes: its row and 1, or 0.
pub fn trex_of(
    s: &[u8],
    track: u64,
    n: usize,
    starts: &[usize; 4096],
    sizes: &[usize; 4096],
    kinds: &[usize; 4096],
    parents: &[usize; 4096],
    placed: &[usize; 4096],
) -> usize
    ensures { result ≡ trex_of s.now (boxes starts.now sizes.now kinds.now parents.now placed.now) (min n box_limit) track }
{
    let end = parent::rows(n);
    let mut j = 0;
    while j < end {
        if extends(s, track, j, starts, sizes, kinds, parents, placed) {
            return j + 1;
        }
        j = j + 1;
    }
    0
}

fn in_traf(
    s: &[u8],
    p: usize,
    n: usize,
    starts: &[usize; 4096],
    sizes: &[usize; 4096],
    kinds: &[usize; 4096],
    parents: &[usize; 4096],
    placed: &[usize; 4096],
) -> u32
    requires { n ≤ 4096 }
    ensures { result ≡ in_traf s.now (boxes starts.now sizes.now kinds.now parents.now placed.now) n p }
{
    let tfhd = inside::child(kinds::TFHD, p, n, starts, sizes, kinds, parents, placed);
    if tfhd == 0 {
        return kinds::TFHD;
    }
    let track = track_of(s, tfhd - 1, starts, sizes, kinds, parents, placed);
    if trex_of(s, track, n, starts, sizes, kinds, parents, placed) == 0 {
        return kinds::TREX;
    }
    if inside::child(kinds::TFDT, p, n, starts, sizes, kinds, parents, placed) == 0 {
        return kinds::TFDT;
    }
    if inside::child(kinds::TRUN, p, n, starts, sizes, kinds, parents, placed) == 0 {
        return kinds::TRUN;
    }
    0
}

// What box j lacks, where it is a traf of the moof.
fn traf_at(
    s: &[u8],
    moof: usize,
    j: usize,
    n: usize,
    starts: &[usize; 4096],
    sizes: &[usize; 4096],
    kinds: &[usize; 4096],
    parents: &[usize; 4096],
    placed: &[usize; 4096],
) -> u32
    requires { (j < n) × (n ≤ 4096) }
    ensures { result ≡ when (in_parent (boxes starts.now sizes.now kinds.now parents.now placed.now) traf moof j) (in_traf s.now (boxes starts.now sizes.now kinds.now parents.now placed.now) n (j + 1)) 0 }
{
    if parent::in_parent(kinds::TRAF, moof, j, starts, sizes, kinds, parents, placed) {
        return in_traf(s, j + 1, n, starts, sizes, kinds, parents, placed);
    }
    0
}

// What the first traf of a moof lacks that lacks something.
fn in_trafs(
    s: &[u8],
    moof: usize,
    n: usize,
    starts: &[usize; 4096],
    sizes: &[usize; 4096],
    kinds: &[usize; 4096],
    parents: &[usize; 4096],
    placed: &[usize; 4096],
) -> u32
    requires { n ≤ 4096 }
    ensures { result ≡ each (boxes starts.now sizes.now kinds.now parents.now placed.now) n traf moof (in_traf s.now (boxes starts.now sizes.now kinds.now parents.now placed.now) n) }
{
    let mut j = 0;
    while j < n {
        let kind = traf_at(s, moof, j, n, starts, sizes, kinds, parents, placed);
        if kind != 0 {
            return kind;
        }
        j = j + 1;
    }
    0
}

fn in_moof(
    s: &[u8],
    p: usize,
    n: usize,
    starts: &[usize; 4096],
    sizes: &[usize; 4096],
    kinds: &[usize; 4096],
    parents: &[usize; 4096],
    placed: &[usize; 4096],
) -> u32
    requires { n ≤ 4096 }
    ensures { result ≡ in_moof s.now (boxes starts.now sizes.now kinds.now parents.now placed.now) n p }
{
    if inside::child(kinds::MFHD, p, n, starts, sizes, kinds, parents, placed) == 0 {
        return kinds::MFHD;
    }
    in_trafs(s, p, n, starts, sizes, kinds, parents, placed)
}

// What box j lacks, where it is a moof of the file.
fn moof_at(
    s: &[u8],
    j: usize,
    n: usize,
    starts: &[usize; 4096],
    sizes: &[usize; 4096],
    kinds: &[usize; 4096],
    parents: &[usize; 4096],
    placed: &[usize; 4096],
) -> u32
    requires { (j < n) × (n ≤ 4096) }
    ensures { result ≡ when (in_parent (boxes starts.now sizes.now kinds.now parents.now placed.now) moof 0 j) (in_moof s.now (boxes starts.now sizes.now kinds.now parents.now placed.now) n (j + 1)) 0 }
{
    if parent::in_parent(kinds::MOOF, 0, j, starts, sizes, kinds, parents, placed) {
        return in_moof(s, j + 1, n, starts, sizes, kinds, parents, placed);
    }
    0
}

// What the first moof lacks that lacks something.
pub(crate) fn in_moofs(
    s: &[u8],
    n: usize,
    starts: &[usize; 4096],
    sizes: &[usize; 4096],
    kinds: &[usize; 4096],
    parents: &[usize; 4096],
    placed: &[usize; 4096],
) -> u32
    requires { n ≤ 4096 }
    ensures { result ≡ each (boxes starts.now sizes.now kinds.now parents.now placed.now) n moof 0 (in_moof s.now (boxes starts.now sizes.now kinds.now parents.now placed.now) n) }
{
    let mut j = 0;
    while j < n {
        let kind = moof_at(s, j, n, starts, sizes, kinds, parents, placed);
        if kind != 0 {
            return kind;
        }
        j = j + 1;
    }
    0
}
