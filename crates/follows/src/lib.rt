#![tactic(auto, unfolding(numbers::specs::Field::when, numbers::specs::Field::field))]
// Whether fragments follow on, in number and in time (01, Fragments; A34, A42): by the moofs and the runs of a file, which
// are lent as tables (crates `mooftable` and `runtable`). One pass, moof by moof: first its number, then the times by track.
// The first finding is kept and the walk goes on, since a gap further on may not fit (A13).
ghost use Rattle.std.specs.Prelude.{◌≡◌, ◌≤◌, min, drop};
ghost use Rattle.runtable.specs.Table.{rows_of};
ghost use Rattle.mooftable.specs.Table as table;
ghost use Rattle.verdicts.specs.Fragments.{next_number};
ghost use Rattle.follows.specs.Follows.{numbers_in, followed_of};
ghost use Rattle.follows.specs.Walk.{joined, time_asked, number_asked, due_by, walked, after_run, after_runs, walks, after_tracks, last_row};
ghost use Rattle.follows.specs.declared.Followed.TheVariants as followed;

use mooftable::Moof;
use runs::Run;
use verdicts::Finding;

// Over: a gap does not fit 64 signed bits.
#[derive(Clone, Copy)]
pub enum Followed {
    Over,
    Passes,
    Found(Finding),
}

// The run of a track before: whether there is one, when it began, and how long it lasts.
#[derive(Clone, Copy)]
struct Before {
    some: bool,
    time: u64,
    lasts: u64,
}

// What is known behind some runs of a track.
#[derive(Clone, Copy)]
struct Walk {
    before: Before,
    told: Followed,
}

// What is known of all tracks.
#[derive(Clone, Copy)]
struct Walks {
    befores: [Before; 4],
    told: Followed,
}

// What was told, and then a finding: the first one stays.
fn then_found(told: Followed, found: Finding) -> Followed
    ensures { result ≡ joined told (followed.Found found) }
{
    match told {
        Followed::Over => Followed::Over,
        Followed::Passes => Followed::Found(found),
        Followed::Found(first) => Followed::Found(first),
    }
}

// What was told, and then F8 of a run of that track at that time, in the moof that starts at `at`.
fn then_timed(told: Followed, before: Before, time: u64, track: u32, at: u64) -> Followed
    ensures { result ≡ joined told (time_asked before time track at) }
{
    if before.some {
        match gaps::between(before.time, before.lasts, time) {
            None => {
                return Followed::Over;
            }
            Some(gap) => {
                if gap == 0 {
                    return told;
                }
                return then_found(
                    told,
                    Finding {
                        number: 8,
                        track,
                        sample: 0,
                        position: at,
                        gap,
                    },
                );
            }
        }
    }
    told
}

// What is known behind one more run: another track's says nothing.
fn step(file: &[u8], run: Run, track: u32, at: u64, before: Before, told: Followed) -> Walk
    ensures { result ≡ after_run file.now track at run (walked before told) }
{
    if run.track == track {
        return Walk {
            told: then_timed(told, before, run.time, track, at),
            before: Before {
                some: true,
                time: run.time,
                lasts: runsums::lasts(file, run),
            },
        };
    }
    Walk { before, told }
}

// What is known of a track behind the runs from row `from` up to and not with row `to`.
fn in_track(
    file: &[u8],
    runs: &[u64],
    from: usize,
    to: usize,
    track: u32,
    at: u64,
    before: Before,
    told: Followed,
) -> Walk
    ensures { result ≡ after_runs file.now track at (drop from (rows_of runs.now to)) (walked before told) }
{
    let mut last = before;
    let mut so_far = told;
    let mut i = from;
    while i < to {
        let Some(run) = runtable::row(runs, i) else {
            return Walk {
                before: last,
                told: so_far,
            };
        };
        let walk = step(file, run, track, at, last, so_far);
        last = walk.before;
        so_far = walk.told;
        i += 1;
    }
    Walk {
        before: last,
        told: so_far,
    }
}

// What is known of all tracks behind the runs of one moof, which starts at `at`.
fn in_moof(
    file: &[u8],
    runs: &[u64],
    from: usize,
    to: usize,
    at: u64,
    numbers: [u32; 4],
    count: usize,
    befores: [Before; 4],
    told: Followed,
) -> Walks
    requires { count ≤ 4 }
    ensures { result ≡ after_tracks file.now at (drop from (rows_of runs.now to)) 0 (numbers_in numbers count) (walks befores told) }
{
    let mut all = befores;
    let mut so_far = told;
    let mut k = 0;
    while k < count {
        let walk = in_track(file, runs, from, to, numbers[k], at, all[k], so_far);
        let last = walk.before;
        all[k] = last;
        so_far = walk.told;
        k += 1;
    }
    Walks {
        befores: all,
        told: so_far,
    }
}

// What was told, and then F7 of a moof: its number is due, where there was a moof before.
fn then_numbered(told: Followed, some: bool, due: u32, moof: Moof) -> Followed
    ensures { result ≡ joined told (number_asked (due_by some due) moof) }
{
    if some {
        if moof.number == due {
            return told;
        }
        return then_found(
            told,
            Finding {
                number: 7,
                track: 0,
                sample: 0,
                position: moof.start,
                gap: 0,
            },
        );
    }
    told
}

// One more, rolling from the largest number to 0.
fn next_number(n: u32) -> u32
    ensures { result ≡ next_number n }
{
    std::num::wrapping_add_u32(n, 1)
}

// The row at which the runs before row i of the moofs end: that of the moof's first run, or the last of all.
fn last_row(moofs: &[u64], n: usize, i: usize, rows: usize) -> usize
    ensures { result ≡ last_row rows (drop i (table.rows_of moofs.now n)) }
{
    if n <= i {
        return rows;
    }
    let Some(next) = mooftable::row(moofs, i) else {
        return rows;
    };
    if next.runs < rows {
        return next.runs;
    }
    rows
}

fn tracks(count: usize) -> usize
    ensures { result ≡ min count 4 }
{
    if count < 4 { count } else { 4 }
}

// Whether the moofs in the first n rows of their table follow on, with the first `rows` runs, for the first `count` tracks,
// 4 at most, by their numbers in the order of the moov.
pub fn follow(
    file: &[u8],
    runs: &[u64],
    rows: usize,
    moofs: &[u64],
    n: usize,
    numbers: [u32; 4],
    count: usize,
) -> Followed
    ensures { result ≡ followed_of file.now (rows_of runs.now rows) (table.rows_of moofs.now n) (numbers_in numbers (min count 4)) }
{
    let many = tracks(count);
    let mut befores = [Before {
        some: false,
        time: 0,
        lasts: 0,
    }; 4];
    let mut told = Followed::Passes;
    let mut some = false;
    let mut due: u32 = 0;
    let mut i = 0;
    while i < n {
        let Some(moof) = mooftable::row(moofs, i) else {
            return told;
        };
        i += 1;
        let to = last_row(moofs, n, i, rows);
        let counted = then_numbered(told, some, due, moof);
        let all = in_moof(
            file, runs, moof.runs, to, moof.start, numbers, many, befores, counted,
        );
        befores = all.befores;
        told = all.told;
        some = true;
        due = next_number(moof.number);
    }
    told
}
