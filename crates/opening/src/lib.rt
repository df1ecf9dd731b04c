#![tactic(auto, unfolding(numbers::specs::Field::when, numbers::specs::Field::field))]
// Why a file is refused by its boxes, which are recorded in the tables.
ghost use Rattle.std.specs.Prelude.{◌≡◌, min};
ghost use Rattle.places.specs.Visit.{box_limit};
ghost use Rattle.kin.specs.Kin.{boxes};
ghost use Rattle.needed.specs.Needed.{missing_of};
ghost use Rattle.opening.specs.Opening.{content_fault, lacking, recorded, rest_of, refusal_of};

use numbers::Refusal;
use tree::Scanned;

fn rows(n: usize) -> usize
    ensures { result ≡ min n box_limit }
{
    if n < 4096 { n } else { 4096 }
}

// The first fault in the content of the n recorded boxes.
fn content_fault(
    s: &[u8],
    n: usize,
    starts: &[usize; 4096],
    sizes: &[usize; 4096],
    kinds: &[usize; 4096],
    parents: &[usize; 4096],
    placed: &[usize; 4096],
) -> Result<(), Refusal>
    ensures { result ≡ content_fault s.now (boxes starts.now sizes.now kinds.now parents.now placed.now) n }
{
    let end = rows(n);
    let mut i = 0;
    while i < end {
        contents::fault(s, n, i, starts, sizes, kinds, parents, placed)?;
        i = i + 1;
    }
    Ok(())
}

// What is missing, as a refusal.
fn lacks(
    s: &[u8],
    n: usize,
    starts: &[usize; 4096],
    sizes: &[usize; 4096],
    kinds: &[usize; 4096],
    parents: &[usize; 4096],
    placed: &[usize; 4096],
) -> Result<(), Refusal>
    ensures { result ≡ lacking (missing_of s.now (boxes starts.now sizes.now kinds.now parents.now placed.now) n) }
{
    match needed::first_missing(s, n, starts, sizes, kinds, parents, placed) {
        None => Ok(()),
        Some(kind) => Err(Refusal::Missing(kind)),
    }
}

fn recorded(scanned: Scanned) -> usize
    ensures { result ≡ recorded scanned }
{
    match scanned {
        Scanned::Whole(n) => n,
        Scanned::Fault(n, _) => n,
    }
}

// What is told where no recorded box has a fault: the fault of a header, or what is missing.
fn rest(
    s: &[u8],
    scanned: Scanned,
    starts: &[usize; 4096],
    sizes: &[usize; 4096],
    kinds: &[usize; 4096],
    parents: &[usize; 4096],
    placed: &[usize; 4096],
) -> Result<(), Refusal>
    ensures { result ≡ rest_of s.now (boxes starts.now sizes.now kinds.now parents.now placed.now) scanned }
{
    match scanned {
        Scanned::Whole(n) => lacks(s, n, starts, sizes, kinds, parents, placed),
        Scanned::Fault(_, q) => Err(q),
    }
}

// Why the file is refused whose boxes were recorded so far.
pub fn refusal(
    s: &[u8],
    scanned: Scanned,
    starts: &[usize; 4096],
    sizes: &[usize; 4096],
    kinds: &[usize; 4096],
    parents: &[usize; 4096],
    placed: &[usize; 4096],
) -> Result<(), Refusal>
    ensures { result ≡ refusal_of s.now (boxes starts.now sizes.now kinds.now parents.now placed.now) scanned }
{
    let n = recorded(scanned);
    content_fault(s, n, starts, sizes, kinds, parents, placed)?;
    rest(s, scanned, starts, sizes, kinds, parents, placed)
}
