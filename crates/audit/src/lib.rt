#![tactic(auto, unfolding(numbers::specs::Field::when, numbers::specs::Field::field))]
// The audit of a file: from its bytes to a verdict, or to why it is refused.
ghost use Rattle.std.specs.Prelude.{◌≡◌};
ghost use Rattle.kin.specs.Kin.{boxes};
ghost use Rattle.runtable.specs.Table.{rows_of};
ghost use Rattle.mooftable.specs.Table as moof-rows;
ghost use Rattle.follows.specs.Follows.{moofs_in};
ghost use Rattle.opening.specs.Opening.{recorded};
ghost use Rattle.audit.specs.File.{first_traks, tables_in, movie_in, audit_file};
ghost use Rattle.audit.specs.Inside.{more_of, judged_by, judged_all};

use kin::TRACKS;
use moofs::Filled;
use tables::{Chunks, Sizes, Table, Track};
use tree::Scanned;
use verdicts::Audited;

// A place for a track: with no samples.
fn no_track() -> Track {
    Track {
        stts: Table { at: 0, count: 0 },
        ctts: None,
        stsc: Table { at: 0, count: 0 },
        stsz: Sizes {
            at: 0,
            count: 0,
            common: 0,
        },
        stco: Chunks {
            at: 0,
            count: 0,
            wide: false,
        },
        stss: None,
    }
}

// Whether there is a further trak, and room for it.
fn more(trak: usize, count: usize) -> bool
    ensures { result ≡ more_of trak count }
{
    if trak == 0 {
        return false;
    }
    count < TRACKS
}

// The tracks of the moov one by one, and then the audit of all.
fn by_tracks(
    file: &[u8],
    n: usize,
    starts: &[usize; 4096],
    sizes: &[usize; 4096],
    kinds: &[usize; 4096],
    parents: &[usize; 4096],
    placed: &[usize; 4096],
    runs: &[u64],
    rows: usize,
    moofs: &[u64],
    many: usize,
) -> Audited
    ensures { result ≡ judged_by file.now (boxes starts.now sizes.now kinds.now parents.now placed.now) n (rows_of runs.now rows) (moofs_in file.now (rows_of runs.now rows) (moof-rows.rows_of moofs.now many)) }
{
    let mut numbers = [0u32; 4];
    let mut tracks = [no_track(); 4];
    let mut count: usize = 0;
    let mut trak = traks::next(0, n, starts, sizes, kinds, parents, placed);
    while more(trak, count) {
        match traks::tables(file, trak, n, starts, sizes, kinds, parents, placed) {
            Err(q) => {
                return Audited::Refused(q);
            }
            Ok(track) => {
                numbers[count] = traks::number(
                    file, trak, n, starts, sizes, kinds, parents, placed,
                );
                tracks[count] = track;
                count += 1;
                trak = traks::next(trak, n, starts, sizes, kinds, parents, placed);
            }
        }
    }
    movie::judge(
        file, n, starts, sizes, kinds, parents, placed, numbers, tracks, count, runs, rows, moofs,
        many,
    )
}

// The fragments into tables of so many rows as there may be boxes, and then the tracks.
fn by_fragments(
    file: &[u8],
    n: usize,
    starts: &[usize; 4096],
    sizes: &[usize; 4096],
    kinds: &[usize; 4096],
    parents: &[usize; 4096],
    placed: &[usize; 4096],
) -> Audited
    ensures { result ≡ judged_all (movie_in file.now (boxes starts.now sizes.now kinds.now parents.now placed.now) n) }
{
    let mut runs = [0u64; 49152];
    let mut moofs = [0u64; 12288];
    match moofs::fill(
        file, n, starts, sizes, kinds, parents, placed, &mut runs, &mut moofs,
    ) {
        Err(why) => Audited::Refused(why),
        Ok(
            Filled {
                runs: rows,
                moofs: many,
            },
        ) => by_tracks(
            file, n, starts, sizes, kinds, parents, placed, &runs, rows, &moofs, many,
        ),
    }
}

fn count_in(scanned: Scanned) -> usize
    ensures { result ≡ recorded scanned }
{
    match scanned {
        Scanned::Whole(n) => n,
        Scanned::Fault(n, _) => n,
    }
}

// The verdict on a file, or why it is refused.
pub fn audit(file: &[u8]) -> Audited
    ensures { result ≡ audit_file file.now }
{
    let mut starts = [0usize; 4096];
    let mut sizes = [0usize; 4096];
    let mut kinds = [0usize; 4096];
    let mut parents = [0usize; 4096];
    let mut depths = [0usize; 4096];
    let mut placed = [0usize; 4096];
    let scanned = tree::scan(
        file,
        &mut starts,
        &mut sizes,
        &mut kinds,
        &mut parents,
        &mut depths,
        &mut placed,
    );
    match opening::refusal(file, scanned, &starts, &sizes, &kinds, &parents, &placed) {
        Err(q) => Audited::Refused(q),
        Ok(()) => by_fragments(
            file,
            count_in(scanned),
            &starts,
            &sizes,
            &kinds,
            &parents,
            &placed,
        ),
    }
}
