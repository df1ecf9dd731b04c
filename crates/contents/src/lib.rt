#![tactic(auto, unfolding(numbers::specs::Field::when, numbers::specs::Field::field))]
// Whether a recorded box has a fault, and which: of its place among others, of the number that is held against them,
// or of its own content.
ghost use Rattle.std.specs.Prelude.{◌≡◌, ◌<◌};
ghost use Rattle.contents.specs.Held.{key_at};
ghost use Rattle.kin.specs.Kin.{boxes};
ghost use Rattle.contents.specs.Contents.{content_of, numbered, box_fault};

use numbers::Refusal;

pub mod held;

// What the box's own reader refuses.
fn content(
    s: &[u8],
    i: usize,
    starts: &[usize; 4096],
    sizes: &[usize; 4096],
    kinds: &[usize; 4096],
    parents: &[usize; 4096],
    placed: &[usize; 4096],
) -> Result<(), Refusal>
    requires { i < 4096 }
    ensures { result ≡ content_of s.now (boxes starts.now sizes.now kinds.now parents.now placed.now) i }
{
    let kind = kinds[i];
    if 0xffff_ffff < kind {
        return Ok(());
    }
    match readers::fault(kind as u32, parts::part(s, starts[i], sizes[i])) {
        Ok(()) => Ok(()),
        Err(q) => Err(q.moved(starts[i])),
    }
}

// What is refused of a box for its number comes before what is refused of its content.
fn numbered(
    s: &[u8],
    n: usize,
    i: usize,
    starts: &[usize; 4096],
    sizes: &[usize; 4096],
    kinds: &[usize; 4096],
    parents: &[usize; 4096],
    placed: &[usize; 4096],
) -> Result<(), Refusal>
    requires { i < 4096 }
    ensures { result ≡ numbered s.now (boxes starts.now sizes.now kinds.now parents.now placed.now) n i (key_at s.now (boxes starts.now sizes.now kinds.now parents.now placed.now) i) }
{
    let Some((x, p)) = held::key_at(s, i, starts, sizes, kinds, parents, placed) else {
        return content(s, i, starts, sizes, kinds, parents, placed);
    };
    if let Some(q) = held::refusal_of(s, n, i, x, p, starts, sizes, kinds, parents, placed) {
        return Err(q.moved(starts[i]));
    }
    content(s, i, starts, sizes, kinds, parents, placed)
}

// The fault of box i of the n that are recorded in the tables.
pub fn fault(
    s: &[u8],
    n: usize,
    i: usize,
    starts: &[usize; 4096],
    sizes: &[usize; 4096],
    kinds: &[usize; 4096],
    parents: &[usize; 4096],
    placed: &[usize; 4096],
) -> Result<(), Refusal>
    ensures { result ≡ box_fault s.now (boxes starts.now sizes.now kinds.now parents.now placed.now) n i }
{
    if 4096 <= i {
        return Ok(());
    }
    if placed[i] != 1 {
        return Ok(());
    }
    if kin::twice(i, starts, sizes, kinds, parents, placed) {
        return Err(Refusal::Twice(starts[i]));
    }
    if kin::crowded(i, starts, sizes, kinds, parents, placed) {
        return Err(Refusal::Limit(starts[i]));
    }
    numbered(s, n, i, starts, sizes, kinds, parents, placed)
}
