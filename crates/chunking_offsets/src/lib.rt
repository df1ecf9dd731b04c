#![tactic(auto, unfolding(numbers::specs::Field::when, numbers::specs::Field::field))]
// The places of the chunks (ISO/IEC 14496-12, 8.7.5): in 32 bits each where all of them fit (stco), else in 64 (co64).
ghost use Rattle.std.specs.Prelude.{◌≡◌, ◌^◌, ◌<◌, length};
ghost use Rattle.put.specs.Put.{wrote};
ghost use Rattle.columns.specs.Entries.{Filled, Emitted};
ghost use Rattle.chunking.specs.Chunking.{closed_of, chunks_in};
ghost use Rattle.chunking.specs.Entries.{offset_words, offsets_by, any_wide, offsets_of};

use chunking::Step;
use columns::{DURATION, OFFSET, SIZE};
use numbers::Refusal;

const NARROW: u64 = 0x1_0000_0000;

// A place as the k-th number, and the next where it is wide; and the place after it.
fn put_offset(out: &mut [u8], k: usize, at: u64, wide: bool) -> usize
    requires { k < 2 ^ 60 }
    ensures { Emitted (offset_words wide at) out.old k out.new result }
{
    let low = (at % NARROW) as u32;
    if wide {
        let high = (at / NARROW) as u32;
        columns::word(out, k, high);
        columns::word(out, k + 1, low);
        return k + 2;
    }
    columns::word(out, k, low);
    k + 1
}

// The place of the chunk that a step closed, if any.
fn put_closed(out: &mut [u8], k: usize, step: Step, wide: bool) -> usize
    requires { k < 2 ^ 60 }
    ensures { Emitted (offsets_by wide (closed_of step)) out.old k out.new result }
{
    match step {
        Step::Longer(_) => k,
        Step::Closed { chunk, open: _ } => put_offset(out, k, chunk.at, wide),
    }
}

// The places of the chunks, put as far as the buffer has room, and how many numbers they are.
fn fill(records: &[u64], n: usize, timescale: u32, wide: bool, out: &mut [u8]) -> usize
    requires { n < 2 ^ 32 }
    ensures { Filled (offsets_by wide (chunks_in timescale records.now n)) out.old out.new result }
{
    let mut chunk = chunking::none();
    let mut k: usize = 0;
    let mut i: usize = 0;
    while i < n {
        let offset = columns::cell(records, i, OFFSET);
        let size = columns::low(records, i, SIZE);
        let duration = columns::low(records, i, DURATION);
        let step = chunking::next(chunk, timescale, offset, size, duration);
        k = put_closed(out, k, step, wide);
        chunk = chunking::after(step);
        i += 1;
    }
    let last = chunking::finish(chunk);
    put_closed(out, k, last, wide)
}

// The numbers counted, by a buffer that has room for none.
fn walk(records: &[u64], n: usize, timescale: u32, wide: bool) -> usize
    requires { n < 2 ^ 32 }
    ensures { result ≡ length (offsets_by wide (chunks_in timescale records.now n)) }
{
    let mut none = [0u8; 1];
    fill(records, n, timescale, wide, &mut none)
}

// Whether a step closed a chunk whose place has no 32 bits.
fn far(step: Step) -> bool
    ensures { result ≡ any_wide (closed_of step) }
{
    match step {
        Step::Longer(_) => false,
        Step::Closed { chunk, open: _ } => {
            let at = chunk.at;
            NARROW <= at
        }
    }
}

// Whether the place of a chunk has no 32 bits, so that the box is co64.
pub fn wide(records: &[u64], n: usize, timescale: u32) -> bool
    ensures { result ≡ any_wide (chunks_in timescale records.now n) }
{
    let mut chunk = chunking::none();
    let mut i: usize = 0;
    while i < n {
        let offset = columns::cell(records, i, OFFSET);
        let size = columns::low(records, i, SIZE);
        let duration = columns::low(records, i, DURATION);
        let step = chunking::next(chunk, timescale, offset, size, duration);
        if far(step) {
            return true;
        }
        chunk = chunking::after(step);
        i += 1;
    }
    far(chunking::finish(chunk))
}

// The entries of stco, or of co64 where a place has no 32 bits, for the first n records, and their length.
pub fn entries(records: &[u64], n: usize, timescale: u32, out: &mut [u8]) -> Result<usize, Refusal>
    ensures { wrote result out.new ≡ offsets_of timescale records.now n out.old }
{
    if timescale == 0 {
        return Err(Refusal::Value(0));
    }
    if !columns::has(records, n) {
        return Err(Refusal::NoSample(n));
    }
    if columns::MANY < n {
        return Err(Refusal::Unwritable);
    }
    if !chunking::fit(records, n) {
        return Err(Refusal::Unwritable);
    }
    let far = wide(records, n, timescale);
    let numbers = walk(records, n, timescale, far);
    let needed = numbers * 4;
    if out.len() < needed {
        return Err(Refusal::TooSmall(needed));
    }
    fill(records, n, timescale, far, out);
    Ok(needed)
}
