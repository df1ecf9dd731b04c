#![tactic(auto, unfolding(numbers::specs::Field::when, numbers::specs::Field::field))]
// What is told of one track of a file, from the file's bytes: its number, its samples, one of them, or its figures.
ghost use Rattle.std.specs.Prelude.{◌≡◌, ◌<◌, ◌≤◌};
ghost use Rattle.kin.specs.Kin.{boxes};
ghost use Rattle.samples.specs.Records.{output};
ghost use Rattle.runtable.specs.Table.{rows_of};
ghost use Rattle.moofs.specs.Moofs.{fragments_of};
ghost use Rattle.opening.specs.Opening.{recorded};
ghost use Rattle.traks.specs.Traks.{tables_of};
ghost use Rattle.tracksamples.specs.TrackSamples.{samples_from, count_of};
ghost use Rattle.opened.specs.Opened.{trak_at, by_count, answer_of, by_tables, by_trak, tell_in, tell_of};
ghost use Rattle.opened.specs.Inside.{goes_on};

use numbers::Refusal;
use places::kinds;
use tracksamples::Source;
use tree::Scanned;

// What is asked of a track: its number, all its samples, the one of a number, or its figures.
#[derive(Clone, Copy)]
pub enum Question {
    Number,
    List,
    Sample(u32),
    Summary,
}

// The figures of a track, by how many samples it has and their bytes.
fn summary(
    file: &[u8],
    source: Source,
    runs: &[u64],
    rows: usize,
    trak: &[u8],
    out: &mut [u64],
) -> Result<usize, Refusal>
    ensures { output result out.new ≡ by_count trak.now (samples_from file.now source (rows_of runs.now rows)) out.old (count_of (samples_from file.now source (rows_of runs.now rows))) }
{
    let count = tracksamples::count(file, source, runs, rows)?;
    let total = tracksamples::total(file, source, runs, rows)?;
    figures::of(trak, count, total, out)
}

fn answer(
    file: &[u8],
    source: Source,
    runs: &[u64],
    rows: usize,
    trak: &[u8],
    question: Question,
    out: &mut [u64],
) -> Result<usize, Refusal>
    ensures { output result out.new ≡ answer_of question source.number trak.now (samples_from file.now source (rows_of runs.now rows)) out.old }
{
    match question {
        Question::Number => Ok(source.number as usize),
        Question::List => tracksamples::list(file, source, runs, rows, out),
        Question::Sample(number) => tracksamples::sample(file, source, runs, rows, number, out),
        Question::Summary => summary(file, source, runs, rows, trak, out),
    }
}

// Whether there is a trak, and one behind it is asked for.
fn goes_on(trak: usize, left: usize) -> bool
    ensures { result ≡ goes_on trak left }
{
    if trak == 0 {
        return false;
    }
    left != 0
}

// The trak at a place in the moov, counted from 0: its row and 1; 0 where there is none.
fn trak_at(
    place: usize,
    n: usize,
    starts: &[usize; 4096],
    sizes: &[usize; 4096],
    kinds: &[usize; 4096],
    parents: &[usize; 4096],
    placed: &[usize; 4096],
) -> usize
    ensures { result ≡ trak_at (boxes starts.now sizes.now kinds.now parents.now placed.now) n place }
{
    let mut left = place;
    let mut trak = traks::next(0, n, starts, sizes, kinds, parents, placed);
    while goes_on(trak, left) {
        left -= 1;
        trak = traks::next(trak, n, starts, sizes, kinds, parents, placed);
    }
    trak
}

// The answer of a trak that is there, by its tables or by the runs.
fn by_tables(
    file: &[u8],
    trak: usize,
    n: usize,
    starts: &[usize; 4096],
    sizes: &[usize; 4096],
    kinds: &[usize; 4096],
    parents: &[usize; 4096],
    placed: &[usize; 4096],
    runs: &[u64],
    rows: usize,
    fragmented: bool,
    question: Question,
    out: &mut [u64],
) -> Result<usize, Refusal>
    requires { (0 < trak) × (trak ≤ 4096) }
    ensures { output result out.new ≡ by_tables file.now (boxes starts.now sizes.now kinds.now parents.now placed.now) n (rows_of runs.now rows) fragmented trak question out.old (tables_of file.now (boxes starts.now sizes.now kinds.now parents.now placed.now) n trak) }
{
    let tables = traks::tables(file, trak, n, starts, sizes, kinds, parents, placed)?;
    let number = traks::number(file, trak, n, starts, sizes, kinds, parents, placed);
    answer(
        file,
        Source {
            tables,
            number,
            fragmented,
        },
        runs,
        rows,
        parts::part(file, starts[trak - 1], sizes[trak - 1]),
        question,
        out,
    )
}

// The answer of the trak at a place.
fn by_trak(
    file: &[u8],
    place: usize,
    n: usize,
    starts: &[usize; 4096],
    sizes: &[usize; 4096],
    kinds: &[usize; 4096],
    parents: &[usize; 4096],
    placed: &[usize; 4096],
    runs: &[u64],
    rows: usize,
    fragmented: bool,
    question: Question,
    out: &mut [u64],
) -> Result<usize, Refusal>
    ensures { output result out.new ≡ by_trak file.now (boxes starts.now sizes.now kinds.now parents.now placed.now) n (rows_of runs.now rows) fragmented (trak_at (boxes starts.now sizes.now kinds.now parents.now placed.now) n place) question out.old }
{
    let trak = trak_at(place, n, starts, sizes, kinds, parents, placed);
    if trak == 0 {
        return Err(Refusal::Missing(kinds::TRAK));
    }
    by_tables(
        file, trak, n, starts, sizes, kinds, parents, placed, runs, rows, fragmented, question, out,
    )
}

// The fragments into tables of so many rows as there may be boxes, and then the track.
fn by_fragments(
    file: &[u8],
    place: usize,
    n: usize,
    starts: &[usize; 4096],
    sizes: &[usize; 4096],
    kinds: &[usize; 4096],
    parents: &[usize; 4096],
    placed: &[usize; 4096],
    question: Question,
    out: &mut [u64],
) -> Result<usize, Refusal>
    ensures { output result out.new ≡ tell_in file.now (boxes starts.now sizes.now kinds.now parents.now placed.now) n place question out.old (fragments_of file.now (boxes starts.now sizes.now kinds.now parents.now placed.now) n) }
{
    let mut runs = [0u64; 49152];
    let mut moofs = [0u64; 12288];
    let filled = moofs::fill(
        file, n, starts, sizes, kinds, parents, placed, &mut runs, &mut moofs,
    )?;
    by_trak(
        file,
        place,
        n,
        starts,
        sizes,
        kinds,
        parents,
        placed,
        &runs,
        filled.runs,
        0 < filled.moofs,
        question,
        out,
    )
}

fn count_in(scanned: Scanned) -> usize
    ensures { result ≡ recorded scanned }
{
    match scanned {
        Scanned::Whole(n) => n,
        Scanned::Fault(n, _) => n,
    }
}

// The answer to a question about the track at a place in the moov, counted from 0, in lent words; or the words as they
// were, and why the file is refused by its boxes or its fragments, a missing `trak` where there is no such track, or what
// is refused of the answer itself.
pub fn tell(
    file: &[u8],
    place: usize,
    question: Question,
    out: &mut [u64],
) -> Result<usize, Refusal>
    ensures { output result out.new ≡ tell_of file.now place question out.old }
{
    let mut starts = [0usize; 4096];
    let mut sizes = [0usize; 4096];
    let mut kinds = [0usize; 4096];
    let mut parents = [0usize; 4096];
    let mut depths = [0usize; 4096];
    let mut placed = [0usize; 4096];
    let scanned = tree::scan(
        file,
        &mut starts,
        &mut sizes,
        &mut kinds,
        &mut parents,
        &mut depths,
        &mut placed,
    );
    opening::refusal(file, scanned, &starts, &sizes, &kinds, &parents, &placed)?;
    by_fragments(
        file,
        place,
        count_in(scanned),
        &starts,
        &sizes,
        &kinds,
        &parents,
        &placed,
        question,
        out,
    )
}
