#![tactic(auto, unfolding(numbers::specs::Field::when, numbers::specs::Field::field))]
// The audit of a movie: of its tracks, its media data and its fragments, as its boxes tell them.
ghost use Rattle.std.specs.Prelude.{◌≡◌, ◌&&◌, ◌≤◌, min, take};
ghost use Rattle.kin.specs.Kin.{boxes, track_limit};
ghost use Rattle.payloads.specs.Payloads.{payloads_from};
ghost use Rattle.verdicts.specs.Findings.{asked, first_found};
ghost use Rattle.verdicts.specs.Sweep.{bytes};
ghost use Rattle.runtable.specs.Table.{rows_of};
ghost use Rattle.mooftable.specs.Table as moof-rows;
ghost use Rattle.follows.specs.Follows.{moofs_in};
ghost use Rattle.movie.specs.Movie.{movie_of, has_samples, judge_of};
ghost use Rattle.movie.specs.Inside.{media_of, agreement, agreed, pass_of, pass_all, Few};
ghost use Rattle.movie.specs.Inside.{is_some, is_over, either, first_of, samples_in, breaks, last_of, or_asked, told_of};

use follows::Followed;
use kin::TRACKS;
use numbers::Refusal;
use passes::Passed;
use payloads::Payload;
use tables::Track;
use verdicts::{Audited, Finding};

// The largest number.
const LAST: u64 = 0xFFFF_FFFF_FFFF_FFFF;

fn media(
    file: &[u8],
    n: usize,
    starts: &[usize; 4096],
    sizes: &[usize; 4096],
    kinds: &[usize; 4096],
    parents: &[usize; 4096],
    placed: &[usize; 4096],
) -> Option<u64>
    ensures { result ≡ media_of (bytes (payloads_from file.now (boxes starts.now sizes.now kinds.now parents.now placed.now) n 0)) }
{
    let mut sum: u64 = 0;
    let mut i = 0;
    loop {
        match payloads::next(file, n, i, starts, sizes, kinds, parents, placed) {
            Payload::End => {
                return Some(sum);
            }
            Payload::At { from, to, row } => {
                let more = (to - from) as u64;
                if LAST - sum < more {
                    return None;
                }
                sum += more;
                i = row;
            }
        }
    }
}

fn few(count: usize) -> usize
    ensures { result ≡ min count track_limit }
{
    if count < TRACKS { count } else { TRACKS }
}

// F1, of one track.
fn agreement(file: &[u8], track: Track, number: u32) -> Option<Finding>
    ensures { result ≡ asked (agreement file.now number track) }
{
    if agree::tables(file, track) {
        return None;
    }
    Some(Finding {
        number: 1,
        track: number,
        sample: 0,
        position: 0,
        gap: 0,
    })
}

// F1, by track.
fn agreements(file: &[u8], numbers: [u32; 4], tracks: [Track; 4], count: usize) -> Option<Finding>
    ensures { result ≡ asked (first_found (agreed file.now (take count numbers) (take count tracks))) }
{
    let end = few(count);
    let mut i = 0;
    while i < end {
        let track = tracks[i];
        match agreement(file, track, numbers[i]) {
            Some(x) => {
                return Some(x);
            }
            None => {
                i += 1;
            }
        }
    }
    None
}

// Whether a track's tables have samples.
fn has_samples(tracks: [Track; 4], count: usize) -> bool
    ensures { result ≡ has_samples (take count tracks) }
{
    let end = few(count);
    let mut i = 0;
    while i < end {
        let track = tracks[i];
        let sizes = track.stsz;
        if 0 < sizes.count {
            return true;
        }
        i += 1;
    }
    false
}

fn is_over(passed: Passed) -> bool
    ensures { result ≡ is_over passed }
{
    match passed {
        Passed::Over => true,
        Passed::Fine(_) => false,
        Passed::Found(_) => false,
    }
}

// 9, F2 and F3, of one track. In a fragmented file its samples are those of its runs, and those of its tables fit too.
fn pass(
    file: &[u8],
    track: Track,
    number: u32,
    runs: &[u64],
    rows: usize,
    fragmented: bool,
) -> Passed
    ensures answer { result ≡ pass_of fragmented file.now (rows_of runs.now rows) number track }
    ensures few { Few result }
{
    let own = passes::tables(file, track, number);
    if fragmented {
        if is_over(own) {
            return Passed::Over;
        }
        return runpasses::runs(file, runs, rows, number);
    }
    own
}

// The first finding stays the first.
fn either(first: Option<Finding>, x: Finding) -> Option<Finding>
    ensures { result ≡ either first x }
{
    match first {
        None => Some(x),
        Some(y) => Some(y),
    }
}

// 9, F2 and F3, by track. A track that does not fit is told before any finding, so the tracks behind a finding are
// looked at too.
fn pass_all(
    file: &[u8],
    numbers: [u32; 4],
    tracks: [Track; 4],
    count: usize,
    runs: &[u64],
    rows: usize,
    fragmented: bool,
) -> Passed
    ensures { result ≡ pass_all fragmented file.now (rows_of runs.now rows) (take count numbers) (take count tracks) }
{
    let end = few(count);
    let mut total: usize = 0;
    let mut first = None;
    let mut i = 0;
    while i < end {
        let track = tracks[i];
        match pass(file, track, numbers[i], runs, rows, fragmented) {
            Passed::Over => {
                return Passed::Over;
            }
            Passed::Fine(n) => {
                total += n;
                i += 1;
            }
            Passed::Found(x) => {
                first = either(first, x);
                i += 1;
            }
        }
    }
    match first {
        None => Passed::Fine(total),
        Some(x) => Passed::Found(x),
    }
}

// Where a file's moofs are told of, it is fragmented.
fn is_fragmented(moofs: &[u64], many: usize) -> bool
    ensures { result ≡ is_some (moof-rows.rows_of moofs.now many) }
{
    if many == 0 {
        return false;
    }
    match mooftable::row(moofs, 0) {
        Some(_) => true,
        None => false,
    }
}

fn first_of(passed: Passed) -> Option<Finding>
    ensures { result ≡ first_of passed }
{
    match passed {
        Passed::Over => None,
        Passed::Fine(_) => None,
        Passed::Found(x) => Some(x),
    }
}

fn samples_in(passed: Passed) -> usize
    ensures { result ≡ samples_in passed }
{
    match passed {
        Passed::Over => 0,
        Passed::Fine(n) => n,
        Passed::Found(_) => 0,
    }
}

fn breaks(followed: Followed) -> bool
    ensures { result ≡ breaks followed }
{
    match followed {
        Followed::Over => true,
        Followed::Passes => false,
        Followed::Found(_) => false,
    }
}

fn last_of(followed: Followed) -> Option<Finding>
    ensures { result ≡ last_of followed }
{
    match followed {
        Followed::Over => None,
        Followed::Passes => None,
        Followed::Found(x) => Some(x),
    }
}

fn or_else(first: Option<Finding>, second: Option<Finding>) -> Option<Finding>
    ensures { result ≡ or_asked first second }
{
    match first {
        None => second,
        Some(x) => Some(x),
    }
}

// What the audit answers where nothing is refused: the first finding, or clean, with how much that is about.
fn told(asked: Option<Finding>, tracks: usize, samples: usize, media: u64) -> Audited
    requires { tracks ≤ track_limit }
    ensures { result ≡ told_of asked tracks samples media }
{
    match asked {
        Some(x) => Audited::Found(x),
        None => Audited::Clean {
            tracks: tracks as u32,
            samples: samples as u64,
            media,
        },
    }
}

// The audit of a movie: by n recorded boxes of the file, the first `count` of four tracks with their numbers, the first
// `rows` rows of a table of runs and the first `many` of a table of moofs.
pub fn judge(
    file: &[u8],
    n: usize,
    starts: &[usize; 4096],
    sizes: &[usize; 4096],
    kinds: &[usize; 4096],
    parents: &[usize; 4096],
    placed: &[usize; 4096],
    numbers: [u32; 4],
    tracks: [Track; 4],
    count: usize,
    runs: &[u64],
    rows: usize,
    moofs: &[u64],
    many: usize,
) -> Audited
    ensures { result ≡ judge_of (movie_of file.now (payloads_from file.now (boxes starts.now sizes.now kinds.now parents.now placed.now) n 0) (take count numbers) (take count tracks) (rows_of runs.now rows) (moofs_in file.now (rows_of runs.now rows) (moof-rows.rows_of moofs.now many))) }
{
    let fragmented = is_fragmented(moofs, many);
    let passed = pass_all(file, numbers, tracks, count, runs, rows, fragmented);
    if is_over(passed) {
        return Audited::Refused(Refusal::Overflow);
    }
    let followed = follows::follow(file, runs, rows, moofs, many, numbers, count);
    if breaks(followed) {
        return Audited::Refused(Refusal::Overflow);
    }
    let Some(bytes) = media(file, n, starts, sizes, kinds, parents, placed) else {
        return Audited::Refused(Refusal::Overflow);
    };
    let mixed = fragmented & has_samples(tracks, count);
    if mixed {
        return Audited::Refused(Refusal::Mixed);
    }
    let early = or_else(agreements(file, numbers, tracks, count), first_of(passed));
    let swept = sweeps::sweep(
        file, n, starts, sizes, kinds, parents, placed, numbers, tracks, count, runs, rows,
        fragmented,
    );
    let late = or_else(swept, last_of(followed));
    told(or_else(early, late), few(count), samples_in(passed), bytes)
}
