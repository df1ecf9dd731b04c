// The samples of a file that the audit does not refuse: a line for each, tabs between, by track in the order of the moov.
// Each function tells whether all of it was written.
use crate::say;
use contents::held::SAMPLES;
use kin::TRACKS;
use numbers::Refusal;
use samples::Sample;
use tables::Track;
use tree::Scanned;

fn sample(rt: &impl Print, track: u32, s: Sample) -> bool {
    let sync = if s.sync { 1 } else { 0 };
    say::number(rt, track as u64)
        & say::field(rt, b"\t", s.number as u64)
        & say::field(rt, b"\t", s.offset)
        & say::field(rt, b"\t", s.size as u64)
        & say::field(rt, b"\t", s.time)
        & say::field(rt, b"\t", s.duration as u64)
        & say::text(rt, b"\t")
        & say::signed(rt, s.composition)
        & say::field(rt, b"\t", sync)
        & say::text(rt, b"\n")
}

// The samples of a track's tables.
fn of_tables(rt: &impl Print, file: &[u8], number: u32, track: Track) -> bool {
    let mut whole = true;
    let mut lane = lanes::start();
    for _ in 0..SAMPLES {
        match lanes::next(file, track, lane) {
            lanes::Taken::End => {
                return whole;
            }
            lanes::Taken::Over => {
                return false;
            }
            lanes::Taken::One {
                sample: taken,
                lane: after,
            } => {
                whole = whole & sample(rt, number, taken);
                lane = after;
            }
        }
    }
    whole
}

// The samples of a track's runs.
fn of_runs(rt: &impl Print, file: &[u8], number: u32, runs: &[u64], rows: usize) -> bool {
    let mut whole = true;
    let mut lane = fragments::start();
    for _ in 0..SAMPLES {
        match fragments::next(file, runs, rows, number, lane) {
            fragments::Taken::End => {
                return whole;
            }
            fragments::Taken::Over => {
                return false;
            }
            fragments::Taken::One {
                sample: taken,
                lane: after,
            } => {
                whole = whole & sample(rt, number, taken);
                lane = after;
            }
        }
    }
    whole
}

// A file with fragments has no samples in its tables.
fn of_track(
    rt: &impl Print,
    file: &[u8],
    number: u32,
    found: Result<Track, Refusal>,
    runs: &[u64],
    rows: usize,
    fragmented: bool,
) -> bool {
    if fragmented {
        return of_runs(rt, file, number, runs, rows);
    }
    match found {
        Err(_) => false,
        Ok(track) => of_tables(rt, file, number, track),
    }
}

fn of_tracks(
    rt: &impl Print,
    file: &[u8],
    n: usize,
    starts: &[usize; 4096],
    sizes: &[usize; 4096],
    kinds: &[usize; 4096],
    parents: &[usize; 4096],
    placed: &[usize; 4096],
    runs: &[u64],
    rows: usize,
    fragmented: bool,
) -> bool {
    let mut whole = true;
    let mut trak = traks::next(0, n, starts, sizes, kinds, parents, placed);
    for _ in 0..TRACKS {
        if trak == 0 {
            return whole;
        }
        let number = traks::number(file, trak, n, starts, sizes, kinds, parents, placed);
        let found = traks::tables(file, trak, n, starts, sizes, kinds, parents, placed);
        whole = whole & of_track(rt, file, number, found, runs, rows, fragmented);
        trak = traks::next(trak, n, starts, sizes, kinds, parents, placed);
    }
    whole
}

fn of_boxes(
    rt: &impl Print,
    file: &[u8],
    n: usize,
    starts: &[usize; 4096],
    sizes: &[usize; 4096],
    kinds: &[usize; 4096],
    parents: &[usize; 4096],
    placed: &[usize; 4096],
) -> bool {
    let mut runs = [0u64; 49152];
    let mut moofs = [0u64; 12288];
    match moofs::fill(
        file, n, starts, sizes, kinds, parents, placed, &mut runs, &mut moofs,
    ) {
        Err(_) => false,
        Ok(filled) => of_tracks(
            rt,
            file,
            n,
            starts,
            sizes,
            kinds,
            parents,
            placed,
            &runs,
            filled.runs,
            0 < filled.moofs,
        ),
    }
}

pub(crate) fn print(rt: &impl Print, file: &[u8]) -> bool {
    let mut starts = [0usize; 4096];
    let mut sizes = [0usize; 4096];
    let mut kinds = [0usize; 4096];
    let mut parents = [0usize; 4096];
    let mut depths = [0usize; 4096];
    let mut placed = [0usize; 4096];
    let head = say::text(
        rt,
        b"track\tnumber\toffset\tsize\ttime\tduration\tcomposition\tsync\n",
    );
    match tree::scan(
        file,
        &mut starts,
        &mut sizes,
        &mut kinds,
        &mut parents,
        &mut depths,
        &mut placed,
    ) {
        Scanned::Fault(_, _) => false,
        Scanned::Whole(n) => head
            & of_boxes(rt, file, n, &starts, &sizes, &kinds, &parents, &placed),
    }
}
