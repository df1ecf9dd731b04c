#![tactic(auto, unfolding(numbers::specs::Field::when, numbers::specs::Field::field))]
// The boxes of a type in a parent, among those that are recorded in the tables. A parent is named by its row and 1, or
// by 0 where it is the file; so is each box that is told.
ghost use Rattle.std.specs.Prelude.{◌≡◌, ◌<◌, min};
ghost use Rattle.places.specs.Visit.{box_limit};
ghost use Rattle.kin.specs.Kin.{boxes};
ghost use Rattle.inside.specs.Inside.{in_parent, next_of, child};

fn in_parent(
    kind: u32,
    p: usize,
    j: usize,
    starts: &[usize; 4096],
    sizes: &[usize; 4096],
    kinds: &[usize; 4096],
    parents: &[usize; 4096],
    placed: &[usize; 4096],
) -> bool
    requires { j < 4096 }
    ensures { result ≡ in_parent (boxes starts.now sizes.now kinds.now parents.now placed.now) kind p j }
{
    (placed[j] == 1) & (kinds[j] == kind as usize) & (parents[j] == p)
}

fn rows(n: usize) -> usize
    ensures { result ≡ min n box_limit }
{
    if n < 4096 { n } else { 4096 }
}

// The first of n recorded boxes, from row `from` on, that is of this type and in the parent p: its row and 1, which is
// the row to go on from; 0 where there is none.
pub fn next(
    kind: u32,
    p: usize,
    from: usize,
    n: usize,
    starts: &[usize; 4096],
    sizes: &[usize; 4096],
    kinds: &[usize; 4096],
    parents: &[usize; 4096],
    placed: &[usize; 4096],
) -> usize
    ensures { result ≡ next_of (boxes starts.now sizes.now kinds.now parents.now placed.now) n kind p from }
{
    let end = rows(n);
    let mut j = from;
    while j < end {
        if in_parent(kind, p, j, starts, sizes, kinds, parents, placed) {
            return j + 1;
        }
        j = j + 1;
    }
    0
}

// The first of all of them.
pub fn child(
    kind: u32,
    p: usize,
    n: usize,
    starts: &[usize; 4096],
    sizes: &[usize; 4096],
    kinds: &[usize; 4096],
    parents: &[usize; 4096],
    placed: &[usize; 4096],
) -> usize
    ensures { result ≡ child (boxes starts.now sizes.now kinds.now parents.now placed.now) n kind p }
{
    next(kind, p, 0, n, starts, sizes, kinds, parents, placed)
}
