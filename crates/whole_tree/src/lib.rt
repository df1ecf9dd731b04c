#![tactic(auto, unfolding(numbers::specs::Field::when, numbers::specs::Field::field))]
// The tree of a file's boxes (`tree`) where all of it is told, and none of it where the file has a fault.
ghost use Rattle.std.specs.Prelude.{◌≡◌, ◌≤◌, length, take};
ghost use Rattle.std.proofs.lemmas.List.Edits.{sets};
ghost use Rattle.places.specs.Visit.{box_limit};
ghost use Rattle.tree.specs.Walk.{tree_of};
ghost use Rattle.tree.specs.Tables.{tables, out, all_of};

use numbers::Refusal;
use tree::Scanned;

// The first n numbers of a table, into another.
fn copy(n: usize, from: &[usize; 4096], to: &mut [usize; 4096])
    requires { (n ≤ box_limit) × (n ≤ length from.now) }
    ensures { to.new ≡ sets to.old 0 (take n from.now) }
{
    let mut i = 0;
    while i < n {
        to[i] = from[i];
        i = i + 1;
    }
}

// All boxes of a file, in the lent tables; or a refusal, and the tables as they were.
pub fn tree(
    s: &[u8],
    starts: &mut [usize; 4096],
    sizes: &mut [usize; 4096],
    kinds: &mut [usize; 4096],
    parents: &mut [usize; 4096],
    depths: &mut [usize; 4096],
    placed: &mut [usize; 4096],
) -> Result<usize, Refusal>
    ensures { out result (tables starts.new sizes.new kinds.new parents.new depths.new placed.new)
        ≡ all_of (tables starts.old sizes.old kinds.old parents.old depths.old placed.old) (tree_of s.now) }
{
    let mut a = [0usize; 4096];
    let mut b = [0usize; 4096];
    let mut k = [0usize; 4096];
    let mut p = [0usize; 4096];
    let mut d = [0usize; 4096];
    let mut l = [0usize; 4096];
    match tree::scan(s, &mut a, &mut b, &mut k, &mut p, &mut d, &mut l) {
        Scanned::Fault(_, q) => Err(q),
        Scanned::Whole(n) => {
            copy(n, &a, starts);
            copy(n, &b, sizes);
            copy(n, &k, kinds);
            copy(n, &p, parents);
            copy(n, &d, depths);
            copy(n, &l, placed);
            Ok(n)
        }
    }
}
