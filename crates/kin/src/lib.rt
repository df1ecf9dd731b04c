#![tactic(auto, unfolding(numbers::specs::Field::when, numbers::specs::Field::field))]
// What a recorded box has to do with those before it.
ghost use Rattle.std.specs.Prelude.{◌≡◌, ◌<◌};
ghost use Rattle.kin.specs.Before.{some};
ghost use Rattle.kin.specs.Kin.{boxes, stands, repeats, form, brother, twice, one, earlier, crowded};

use places::kinds;

// How many tracks and fragments there may be.
pub const TRACKS: usize = 4;

pub const FRAGMENTS: usize = 1024;

fn repeats(kind: usize) -> bool
    ensures { result ≡ repeats kind }
{
    (kind == kinds::MOOF as usize)
        | (kind == kinds::MDAT as usize)
        | (kind == kinds::EMSG as usize)
        | (kind == kinds::TRAK as usize)
        | (kind == kinds::TREX as usize)
        | (kind == kinds::URL as usize)
        | (kind == kinds::AVC1 as usize)
        | (kind == kinds::MP4A as usize)
        | (kind == kinds::VP09 as usize)
        | (kind == kinds::TX3G as usize)
        | (kind == kinds::TRAF as usize)
}

fn form(kind: usize) -> usize
    ensures { result ≡ form kind }
{
    if kind == kinds::CO64 as usize {
        kinds::STCO as usize
    } else {
        kind
    }
}

fn brother(
    i: usize,
    j: usize,
    starts: &[usize; 4096],
    sizes: &[usize; 4096],
    kinds: &[usize; 4096],
    parents: &[usize; 4096],
    placed: &[usize; 4096],
) -> bool
    requires { (i < 4096) × (j < 4096) }
    ensures { result ≡ brother (boxes starts.now sizes.now kinds.now parents.now placed.now) i j }
{
    (placed[j] == 1) & (parents[j] == parents[i]) & (form(kinds[j]) == form(kinds[i]))
}

// Whether one of the boxes before box i stands in its parent and is of its type.
fn has_brother(
    i: usize,
    starts: &[usize; 4096],
    sizes: &[usize; 4096],
    kinds: &[usize; 4096],
    parents: &[usize; 4096],
    placed: &[usize; 4096],
) -> bool
    requires { i < 4096 }
    ensures { result ≡ some (brother (boxes starts.now sizes.now kinds.now parents.now placed.now) i) i }
{
    let mut j = 0;
    while j < i {
        if brother(i, j, starts, sizes, kinds, parents, placed) {
            return true;
        }
        j = j + 1;
    }
    false
}

// Whether box i is a once-only box that comes a second time.
pub fn twice(
    i: usize,
    starts: &[usize; 4096],
    sizes: &[usize; 4096],
    kinds: &[usize; 4096],
    parents: &[usize; 4096],
    placed: &[usize; 4096],
) -> bool
    ensures { result ≡ twice (boxes starts.now sizes.now kinds.now parents.now placed.now) i }
{
    if 4096 <= i {
        return false;
    }
    if repeats(kinds[i]) {
        return false;
    }
    has_brother(i, starts, sizes, kinds, parents, placed)
}

fn stands(
    kind: usize,
    j: usize,
    starts: &[usize; 4096],
    sizes: &[usize; 4096],
    kinds: &[usize; 4096],
    parents: &[usize; 4096],
    placed: &[usize; 4096],
) -> bool
    requires { j < 4096 }
    ensures { result ≡ stands (boxes starts.now sizes.now kinds.now parents.now placed.now) kind j }
{
    (placed[j] == 1) & (kinds[j] == kind)
}

fn one(t: bool) -> usize
    ensures { result ≡ one t }
{
    if t { 1 } else { 0 }
}

// How many boxes of this type stand in their place before box i.
fn earlier(
    kind: usize,
    i: usize,
    starts: &[usize; 4096],
    sizes: &[usize; 4096],
    kinds: &[usize; 4096],
    parents: &[usize; 4096],
    placed: &[usize; 4096],
) -> usize
    requires { i < 4096 }
    ensures { result ≡ earlier (boxes starts.now sizes.now kinds.now parents.now placed.now) kind i }
{
    let mut n = 0;
    let mut j = 0;
    while j < i {
        n = n + one(stands(kind, j, starts, sizes, kinds, parents, placed));
        j = j + 1;
    }
    n
}

// Whether box i is one track or one fragment too many.
pub fn crowded(
    i: usize,
    starts: &[usize; 4096],
    sizes: &[usize; 4096],
    kinds: &[usize; 4096],
    parents: &[usize; 4096],
    placed: &[usize; 4096],
) -> bool
    ensures { result ≡ crowded (boxes starts.now sizes.now kinds.now parents.now placed.now) i }
{
    if 4096 <= i {
        return false;
    }
    let kind = kinds[i];
    if kind == kinds::TRAK as usize {
        return TRACKS
            <= earlier(
                kinds::TRAK as usize,
                i,
                starts,
                sizes,
                kinds,
                parents,
                placed,
            );
    }
    if kind == kinds::MOOF as usize {
        return FRAGMENTS
            <= earlier(
                kinds::MOOF as usize,
                i,
                starts,
                sizes,
                kinds,
                parents,
                placed,
            );
    }
    false
}
