#![tactic(auto, unfolding(numbers::specs::Field::when, numbers::specs::Field::field))]
// The fragments of a file, by the boxes that are recorded in the tables: every moof and every run as a row of a lent table.
ghost use Rattle.std.specs.Prelude.{◌≡◌, ◌<◌, ◌≤◌, ◌+◌, min};
ghost use Rattle.places.specs.Visit.{box_limit};
ghost use Rattle.places.specs.Kinds.{moof, traf, mfhd};
ghost use Rattle.kin.specs.Kin.{boxes, stands};
ghost use Rattle.inside.specs.Inside.{child};
ghost use Rattle.mfhd.specs.Mfhd.{mfhd_of};
ghost use Rattle.trafs.specs.Trafs.{bytes_of};
ghost use Rattle.moofs.specs.Moofs.{fragments_of, output, fill_of};
ghost use Rattle.moofs.specs.Walk.{begin_of, add_of, move_of, turned, turn_of, plan_of, tally, Stored};

use mooftable::Moof;
use numbers::Refusal;
use places::kinds;

// How many rows there are in each table.
#[derive(Clone, Copy)]
pub struct Filled {
    pub runs: usize,
    pub moofs: usize,
}

// inside: whether there was a moof; start: its first byte; first: whether its first traf is still to come; previous: where
// the data of the traf before end; runs and moofs: how many rows there are so far.
#[derive(Clone, Copy)]
struct State {
    inside: bool,
    start: u64,
    first: bool,
    previous: u64,
    runs: usize,
    moofs: usize,
}

fn rows(n: usize) -> usize
    ensures { result ≡ min n box_limit }
{
    if n < 4096 { n } else { 4096 }
}

fn is_moof(
    j: usize,
    starts: &[usize; 4096],
    sizes: &[usize; 4096],
    kinds: &[usize; 4096],
    parents: &[usize; 4096],
    placed: &[usize; 4096],
) -> bool
    requires { j < 4096 }
    ensures { result ≡ stands (boxes starts.now sizes.now kinds.now parents.now placed.now) moof j }
{
    (placed[j] == 1) & (kinds[j] == kinds::MOOF as usize)
}

fn is_traf(
    j: usize,
    starts: &[usize; 4096],
    sizes: &[usize; 4096],
    kinds: &[usize; 4096],
    parents: &[usize; 4096],
    placed: &[usize; 4096],
) -> bool
    requires { j < 4096 }
    ensures { result ≡ stands (boxes starts.now sizes.now kinds.now parents.now placed.now) traf j }
{
    (placed[j] == 1) & (kinds[j] == kinds::TRAF as usize)
}

// The mfhd of a moof, read.
fn head(
    s: &[u8],
    n: usize,
    moof: usize,
    starts: &[usize; 4096],
    sizes: &[usize; 4096],
    kinds: &[usize; 4096],
    parents: &[usize; 4096],
    placed: &[usize; 4096],
) -> Result<mfhd::Mfhd, Refusal>
    ensures { result ≡ mfhd_of (bytes_of s.now (boxes starts.now sizes.now kinds.now parents.now placed.now) (child (boxes starts.now sizes.now kinds.now parents.now placed.now) n mfhd moof)) }
{
    let p = inside::child(kinds::MFHD, moof, n, starts, sizes, kinds, parents, placed);
    mfhd::read(parts::part(s, trafs::of_box(starts, p), trafs::of_box(sizes, p)))
}

// The moof in row j is stored, and its trafs come.
fn begin(
    s: &[u8],
    n: usize,
    j: usize,
    state: State,
    starts: &[usize; 4096],
    sizes: &[usize; 4096],
    kinds: &[usize; 4096],
    parents: &[usize; 4096],
    placed: &[usize; 4096],
    runs: &mut [u64],
    moofs: &mut [u64],
) -> Result<State, Refusal>
    requires { (j < 4096) × (state.moofs ≤ j) }
    ensures { turned result runs.new moofs.new ≡ turn_of state (begin_of s.now (boxes starts.now sizes.now kinds.now parents.now placed.now) n j) runs.old moofs.old }
{
    let start = starts[j];
    let Ok(h) = head(s, n, j + 1, starts, sizes, kinds, parents, placed) else {
        return Err(Refusal::Value(start));
    };
    let first_run = state.runs;
    let row = Moof {
        start: start as u64,
        number: h.sequence_number,
        runs: first_run,
    };
    // A row that has no room is counted and not stored.
    let _ = mooftable::store(moofs, state.moofs, row);
    let stored = state.moofs + 1;
    Ok(State {
        inside: true,
        start: start as u64,
        first: true,
        previous: start as u64,
        runs: state.runs,
        moofs: stored,
    })
}

// The run of the traf in row j is stored, and where its data end is kept for the traf after it.
fn add(
    s: &[u8],
    n: usize,
    j: usize,
    state: State,
    starts: &[usize; 4096],
    sizes: &[usize; 4096],
    kinds: &[usize; 4096],
    parents: &[usize; 4096],
    placed: &[usize; 4096],
    runs: &mut [u64],
    moofs: &mut [u64],
) -> Result<State, Refusal>
    requires { (j < 4096) × (state.runs ≤ j) }
    ensures { turned result runs.new moofs.new ≡ turn_of state (add_of s.now (boxes starts.now sizes.now kinds.now parents.now placed.now) n j state) runs.old moofs.old }
{
    let run = trafs::run(
        s,
        n,
        j + 1,
        starts,
        sizes,
        kinds,
        parents,
        placed,
        state.start,
        state.first,
        state.previous,
    )?;
    let Some(end) = runsums::end(s, run) else {
        return Err(Refusal::Overflow);
    };
    let _ = runtable::store(runs, state.runs, run);
    let stored = state.runs + 1;
    Ok(State {
        inside: true,
        start: state.start,
        first: false,
        previous: end,
        runs: stored,
        moofs: state.moofs,
    })
}

// What row j does to the state and the tables.
fn turn(
    s: &[u8],
    n: usize,
    j: usize,
    state: State,
    starts: &[usize; 4096],
    sizes: &[usize; 4096],
    kinds: &[usize; 4096],
    parents: &[usize; 4096],
    placed: &[usize; 4096],
    runs: &mut [u64],
    moofs: &mut [u64],
) -> Result<State, Refusal>
    requires { (j < 4096) × (state.runs ≤ j) × (state.moofs ≤ j) }
    ensures { turned result runs.new moofs.new ≡ turn_of state (move_of s.now (boxes starts.now sizes.now kinds.now parents.now placed.now) n j state) runs.old moofs.old }
{
    if is_moof(j, starts, sizes, kinds, parents, placed) {
        return begin(
            s, n, j, state, starts, sizes, kinds, parents, placed, runs, moofs,
        );
    }
    if state.inside {
        if is_traf(j, starts, sizes, kinds, parents, placed) {
            return add(
                s, n, j, state, starts, sizes, kinds, parents, placed, runs, moofs,
            );
        }
    }
    Ok(state)
}

// The rows one by one: each moof and each run is counted, and stored where its table has room. One loop serves the count,
// with tables that have no room, and the tables that are lent.
fn walk(
    s: &[u8],
    n: usize,
    starts: &[usize; 4096],
    sizes: &[usize; 4096],
    kinds: &[usize; 4096],
    parents: &[usize; 4096],
    placed: &[usize; 4096],
    runs: &mut [u64],
    moofs: &mut [u64],
) -> Result<Filled, Refusal>
    ensures count { result ≡ tally 0 0 (plan_of (fragments_of s.now (boxes starts.now sizes.now kinds.now parents.now placed.now) n)) }
    ensures tables { Stored (plan_of (fragments_of s.now (boxes starts.now sizes.now kinds.now parents.now placed.now) n)) runs.old runs.new moofs.old moofs.new }
{
    let end = rows(n);
    let mut state = State {
        inside: false,
        start: 0,
        first: true,
        previous: 0,
        runs: 0,
        moofs: 0,
    };
    let mut j = 0;
    while j < end {
        state = turn(
            s, n, j, state, starts, sizes, kinds, parents, placed, runs, moofs,
        )?;
        j = j + 1;
    }
    Ok(Filled {
        runs: state.runs,
        moofs: state.moofs,
    })
}

// How many rows there are.
fn count(
    s: &[u8],
    n: usize,
    starts: &[usize; 4096],
    sizes: &[usize; 4096],
    kinds: &[usize; 4096],
    parents: &[usize; 4096],
    placed: &[usize; 4096],
) -> Result<Filled, Refusal>
    ensures { result ≡ tally 0 0 (plan_of (fragments_of s.now (boxes starts.now sizes.now kinds.now parents.now placed.now) n)) }
{
    let mut none = [0u64; 1];
    let mut nothing = [0u64; 1];
    walk(
        s,
        n,
        starts,
        sizes,
        kinds,
        parents,
        placed,
        &mut none,
        &mut nothing,
    )
}

// Every moof and every run as a row of its table, one behind the other; or the tables as they were, and the first
// refusal, else how many rows there are where they have no room.
pub fn fill(
    s: &[u8],
    n: usize,
    starts: &[usize; 4096],
    sizes: &[usize; 4096],
    kinds: &[usize; 4096],
    parents: &[usize; 4096],
    placed: &[usize; 4096],
    runs: &mut [u64],
    moofs: &mut [u64],
) -> Result<Filled, Refusal>
    ensures { output result runs.new moofs.new ≡ fill_of (fragments_of s.now (boxes starts.now sizes.now kinds.now parents.now placed.now) n) runs.old moofs.old }
{
    let filled = count(s, n, starts, sizes, kinds, parents, placed)?;
    if runs.len() / runtable::ROW < filled.runs {
        return Err(Refusal::TooSmall(filled.runs));
    }
    if moofs.len() / mooftable::ROW < filled.moofs {
        return Err(Refusal::TooSmall(filled.moofs));
    }
    walk(s, n, starts, sizes, kinds, parents, placed, runs, moofs)
}
