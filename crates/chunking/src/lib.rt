#![tactic(auto, unfolding(numbers::specs::Field::when, numbers::specs::Field::field))]
// The chunks of a track, from its samples: a chunk closes when its durations reach one timescale (01, Writer), and before
// a sample that does not begin where the one before it ends, since tables tell only the place of a chunk's first sample.
ghost use Rattle.std.specs.Prelude.{◌≡◌};
ghost use Rattle.chunking.specs.Chunking.{piece, empty, alone, goes_on, step_of, finish_of, open_of};
ghost use Rattle.chunking.specs.Entries.{fits_in};

use columns::Rule;
use merging::{MOST, Open};

// The samples that are in a chunk: where the first lies, how many there are, how long they last, and where the last one
// lies and its size. A chunk that counts 0 has none yet.
#[derive(Clone, Copy)]
pub struct Chunk {
    pub at: u64,
    pub count: u32,
    pub lasts: u64,
    pub last: u64,
    pub size: u32,
}

// What a sample does to the open chunk: it joins it, or it closes it and opens another.
#[derive(Clone, Copy)]
pub enum Step {
    Longer(Chunk),
    Closed { chunk: Chunk, open: Chunk },
}

// For stsc: the chunks of the open run, the number of its first chunk, and how many numbers were put.
#[derive(Clone, Copy)]
pub struct Group {
    pub run: Open,
    pub first: u64,
    pub k: usize,
}

// A chunk of one sample.
fn only(offset: u64, size: u32, duration: u32) -> Chunk
    ensures { result ≡ alone (piece offset size duration) }
{
    Chunk {
        at: offset,
        count: 1,
        lasts: duration as u64,
        last: offset,
        size,
    }
}

// The chunk before the first sample.
pub fn none() -> Chunk
    ensures { result ≡ empty }
{
    Chunk {
        at: 0,
        count: 0,
        lasts: 0,
        last: 0,
        size: 0,
    }
}

// Whether a sample at that place joins the chunk.
fn joins(chunk: Chunk, timescale: u32, offset: u64) -> bool
    ensures { result ≡ goes_on timescale chunk offset }
{
    let lasts = chunk.lasts;
    let last = chunk.last;
    let size = chunk.size;
    let count = chunk.count;
    if (timescale as u64) <= lasts {
        return false;
    }
    if offset < last {
        return false;
    }
    if offset - last != (size as u64) {
        return false;
    }
    count < MOST
}

// The chunk, and one more sample.
pub fn next(chunk: Chunk, timescale: u32, offset: u64, size: u32, duration: u32) -> Step
    ensures { result ≡ step_of timescale chunk (piece offset size duration) }
{
    let count = chunk.count;
    let lasts = chunk.lasts;
    if count == 0 {
        return Step::Longer(only(offset, size, duration));
    }
    if !joins(chunk, timescale, offset) {
        return Step::Closed {
            chunk,
            open: only(offset, size, duration),
        };
    }
    Step::Longer(Chunk {
        at: chunk.at,
        count: count + 1,
        lasts: lasts + (duration as u64),
        last: offset,
        size,
    })
}

// The chunk after the last sample: closed, where it counts any.
pub fn finish(chunk: Chunk) -> Step
    ensures { result ≡ finish_of chunk }
{
    let counted = chunk.count;
    if counted == 0 {
        return Step::Longer(none());
    }
    Step::Closed {
        chunk,
        open: none(),
    }
}

// The chunk that is open after a step.
pub fn after(step: Step) -> Chunk
    ensures { result ≡ open_of step }
{
    match step {
        Step::Longer(chunk) => chunk,
        Step::Closed { chunk: _, open } => open,
    }
}

// Whether the sizes and the durations of the first n records have 32 bits.
pub fn fit(records: &[u64], n: usize) -> bool
    ensures { result ≡ fits_in records.now n }
{
    if !columns::all_right(records, n, columns::SIZE, Rule::Narrow) {
        return false;
    }
    columns::all_right(records, n, columns::DURATION, Rule::Narrow)
}
