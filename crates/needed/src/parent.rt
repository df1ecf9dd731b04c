// Whether a box is of a type and in a parent, which is named by its row and 1, or by 0 where it is the file.
ghost use Rattle.std.specs.Prelude.{◌≡◌, ◌<◌, min};
ghost use Rattle.places.specs.Visit.{box_limit};
ghost use Rattle.kin.specs.Kin.{boxes};
ghost use Rattle.inside.specs.Inside.{in_parent};

pub(crate) fn in_parent(
    kind: u32,
    p: usize,
    j: usize,
    starts: &[usize; 4096],
    sizes: &[usize; 4096],
    kinds: &[usize; 4096],
    parents: &[usize; 4096],
    placed: &[usize; 4096],
) -> bool
    requires { j < 4096 }
    ensures { result ≡ in_parent (boxes starts.now sizes.now kinds.now parents.now placed.now) kind p j }
{
    (placed[j] == 1) & (kinds[j] == kind as usize) & (parents[j] == p)
}

// Behind the last row of the tables there is no box.
pub(crate) fn rows(n: usize) -> usize
    ensures { result ≡ min n box_limit }
{
    if n < 4096 { n } else { 4096 }
}
