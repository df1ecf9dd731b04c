#![tactic(auto, unfolding(numbers::specs::Field::when, numbers::specs::Field::field))]
// The first needed box that a file lacks, by the boxes that are recorded in the tables.
ghost use Rattle.std.specs.Prelude.{◌≡◌, ◌≤◌, min};
ghost use Rattle.places.specs.Visit.{box_limit};
ghost use Rattle.kin.specs.Kin.{boxes};
ghost use Rattle.needed.specs.First.{or_else};
ghost use Rattle.needed.specs.Needed.{in_file, missing_of};

use places::kinds;

pub mod moofs;
pub mod parent;
pub mod traks;

fn or_else(a: u32, b: u32) -> u32
    ensures { result ≡ or_else a b }
{
    if a == 0 { b } else { a }
}

fn in_file(
    s: &[u8],
    n: usize,
    starts: &[usize; 4096],
    sizes: &[usize; 4096],
    kinds: &[usize; 4096],
    parents: &[usize; 4096],
    placed: &[usize; 4096],
) -> u32
    requires { n ≤ 4096 }
    ensures { result ≡ in_file s.now (boxes starts.now sizes.now kinds.now parents.now placed.now) n }
{
    if inside::child(kinds::FTYP, 0, n, starts, sizes, kinds, parents, placed) == 0 {
        return kinds::FTYP;
    }
    let moov = inside::child(kinds::MOOV, 0, n, starts, sizes, kinds, parents, placed);
    if moov == 0 {
        return kinds::MOOV;
    }
    if inside::child(kinds::MVHD, moov, n, starts, sizes, kinds, parents, placed) == 0 {
        return kinds::MVHD;
    }
    let track = traks::in_traks(moov, n, starts, sizes, kinds, parents, placed);
    let fragment = moofs::in_moofs(s, n, starts, sizes, kinds, parents, placed);
    or_else(track, fragment)
}

// The first needed box that is missing among the n that are recorded.
pub fn first_missing(
    s: &[u8],
    n: usize,
    starts: &[usize; 4096],
    sizes: &[usize; 4096],
    kinds: &[usize; 4096],
    parents: &[usize; 4096],
    placed: &[usize; 4096],
) -> Option<u32>
    ensures { result ≡ missing_of s.now (boxes starts.now sizes.now kinds.now parents.now placed.now) n }
{
    let kind = in_file(s, parent::rows(n), starts, sizes, kinds, parents, placed);
    if kind == 0 {
        return None;
    }
    Some(kind)
}
