#![tactic(auto, unfolding(numbers::specs::Field::when, numbers::specs::Field::field))]
// The media data of a file: the payloads of its mdats, by the boxes that are recorded in the tables.
ghost use Rattle.std.specs.Prelude.{◌≡◌, false, ◌&&◌, ◌<◌, ◌+◌, min, leb, ltb};
ghost use Rattle.numbers.specs.Field.{when};
ghost use Rattle.places.specs.Visit.{box_limit};
ghost use Rattle.kin.specs.Kin.{boxes};
ghost use Rattle.verdicts.specs.Sweep.{in_some};
ghost use Rattle.payloads.specs.Payloads.{is_media, header_of, to_of, from_of, payloads_from, next_of};

use places::kinds;

// The bytes from `from` up to and not with `to`, and the row after their mdat's.
#[derive(Clone, Copy)]
pub enum Payload {
    At { from: usize, to: usize, row: usize },
    End,
}

// So far behind a position, or the limit where that is past it: the sum is taken only where it is not.
fn reach(start: usize, size: usize, limit: usize) -> usize
    ensures { result ≡ min (start + size) limit }
{
    if limit <= start {
        return limit;
    }
    if limit - start <= size {
        return limit;
    }
    start + size
}

fn header(s: &[u8], start: usize) -> usize
    ensures { result ≡ header_of s.now start }
{
    if words::four(s, start, 0) == 1 {
        return 16;
    }
    8
}

fn to(
    s: &[u8],
    j: usize,
    starts: &[usize; 4096],
    sizes: &[usize; 4096],
    kinds: &[usize; 4096],
    parents: &[usize; 4096],
    placed: &[usize; 4096],
) -> usize
    requires { j < 4096 }
    ensures { result ≡ to_of s.now (boxes starts.now sizes.now kinds.now parents.now placed.now) j }
{
    reach(starts[j], sizes[j], s.len())
}

fn from(
    s: &[u8],
    j: usize,
    starts: &[usize; 4096],
    sizes: &[usize; 4096],
    kinds: &[usize; 4096],
    parents: &[usize; 4096],
    placed: &[usize; 4096],
) -> usize
    requires { j < 4096 }
    ensures { result ≡ from_of s.now (boxes starts.now sizes.now kinds.now parents.now placed.now) j }
{
    let end = to(s, j, starts, sizes, kinds, parents, placed);
    reach(starts[j], header(s, starts[j]), end)
}

// An mdat in another box holds no media data.
fn is_media(
    j: usize,
    starts: &[usize; 4096],
    sizes: &[usize; 4096],
    kinds: &[usize; 4096],
    parents: &[usize; 4096],
    placed: &[usize; 4096],
) -> bool
    requires { j < 4096 }
    ensures { result ≡ is_media (boxes starts.now sizes.now kinds.now parents.now placed.now) j }
{
    (placed[j] == 1) & (kinds[j] == kinds::MDAT as usize) & (parents[j] == 0)
}

fn rows(n: usize) -> usize
    ensures { result ≡ min n box_limit }
{
    if n < 4096 { n } else { 4096 }
}

// The first payload from row i on, of n recorded boxes.
pub fn next(
    s: &[u8],
    n: usize,
    i: usize,
    starts: &[usize; 4096],
    sizes: &[usize; 4096],
    kinds: &[usize; 4096],
    parents: &[usize; 4096],
    placed: &[usize; 4096],
) -> Payload
    ensures { result ≡ next_of s.now (boxes starts.now sizes.now kinds.now parents.now placed.now) n i }
{
    let end = rows(n);
    let mut j = i;
    while j < end {
        if is_media(j, starts, sizes, kinds, parents, placed) {
            return Payload::At {
                from: from(s, j, starts, sizes, kinds, parents, placed),
                to: to(s, j, starts, sizes, kinds, parents, placed),
                row: j + 1,
            };
        }
        j = j + 1;
    }
    Payload::End
}

// Whether box j is an mdat with byte b in its payload.
fn holds_at(
    s: &[u8],
    b: u64,
    j: usize,
    starts: &[usize; 4096],
    sizes: &[usize; 4096],
    kinds: &[usize; 4096],
    parents: &[usize; 4096],
    placed: &[usize; 4096],
) -> bool
    requires { j < 4096 }
    ensures { result ≡ when (is_media (boxes starts.now sizes.now kinds.now parents.now placed.now) j) (leb (from_of s.now (boxes starts.now sizes.now kinds.now parents.now placed.now) j) b && ltb b (to_of s.now (boxes starts.now sizes.now kinds.now parents.now placed.now) j)) false }
{
    if is_media(j, starts, sizes, kinds, parents, placed) {
        let start = from(s, j, starts, sizes, kinds, parents, placed) as u64;
        let end = to(s, j, starts, sizes, kinds, parents, placed) as u64;
        return (start <= b) & (b < end);
    }
    false
}

// Whether byte b lies in a payload of one of n recorded boxes.
pub fn holds(
    s: &[u8],
    n: usize,
    b: u64,
    starts: &[usize; 4096],
    sizes: &[usize; 4096],
    kinds: &[usize; 4096],
    parents: &[usize; 4096],
    placed: &[usize; 4096],
) -> bool
    ensures { result ≡ in_some b (payloads_from s.now (boxes starts.now sizes.now kinds.now parents.now placed.now) n 0) }
{
    let end = rows(n);
    let mut j = 0;
    while j < end {
        if holds_at(s, b, j, starts, sizes, kinds, parents, placed) {
            return true;
        }
        j = j + 1;
    }
    false
}
