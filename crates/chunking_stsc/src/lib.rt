#![tactic(auto, unfolding(numbers::specs::Field::when, numbers::specs::Field::field))]
// How many samples the chunks have (ISO/IEC 14496-12, 8.7.4): an entry where that changes, of the first chunk that has so
// many, their number, and the description, which is 1.
ghost use Rattle.std.specs.Prelude.{◌≡◌, ◌^◌, ◌<◌, length};
ghost use Rattle.put.specs.Put.{wrote};
ghost use Rattle.columns.specs.Entries.{Filled};
ghost use Rattle.chunking.specs.Chunking.{closed_of};
ghost use Rattle.chunking.specs.Entries.{Joined, Grouped, groups_in, stsc_of};

use chunking::{Group, Step};
use columns::{DURATION, OFFSET, SIZE};
use merging::Open;
use numbers::Refusal;

const NARROW: u64 = 0x1_0000_0000;

// The entry of a run of chunks that a step closed, if any.
fn put_run(out: &mut [u8], group: Group, step: merging::Step) -> Group
    requires { (group.k < 2 ^ 60) × (group.first < 2 ^ 60) }
    ensures { Joined step group out.old out.new result }
{
    let first = group.first;
    let k = group.k;
    match step {
        merging::Step::Longer(run) => Group { run, first, k },
        merging::Step::Closed { run, open } => {
            columns::word(out, k, (first % NARROW) as u32);
            columns::word(out, k + 1, run.value);
            columns::word(out, k + 2, 1);
            Group {
                run: open,
                first: first + (run.count as u64),
                k: k + 3,
            }
        }
    }
}

// The chunk that a step closed, if any, joins the open run of chunks, or closes it.
fn put_chunk(out: &mut [u8], group: Group, step: Step) -> Group
    requires { (group.k < 2 ^ 60) × (group.first < 2 ^ 60) }
    ensures { Grouped (closed_of step) group out.old out.new result }
{
    match step {
        Step::Longer(_) => group,
        Step::Closed { chunk, open: _ } => {
            let run = group.run;
            put_run(out, group, run.next(chunk.count))
        }
    }
}

// The entries, put as far as the buffer has room, and how many numbers they are.
fn fill(records: &[u64], n: usize, timescale: u32, out: &mut [u8]) -> usize
    requires { n < 2 ^ 32 }
    ensures { Filled (groups_in timescale records.now n) out.old out.new result }
{
    let mut chunk = chunking::none();
    let mut group = Group {
        run: Open::fresh(),
        first: 1,
        k: 0,
    };
    let mut i: usize = 0;
    while i < n {
        let offset = columns::cell(records, i, OFFSET);
        let size = columns::low(records, i, SIZE);
        let duration = columns::low(records, i, DURATION);
        let step = chunking::next(chunk, timescale, offset, size, duration);
        group = put_chunk(out, group, step);
        chunk = chunking::after(step);
        i += 1;
    }
    let last = chunking::finish(chunk);
    group = put_chunk(out, group, last);
    let run = group.run;
    let end = put_run(out, group, run.finish());
    end.k
}

// The numbers counted, by a buffer that has room for none.
fn walk(records: &[u64], n: usize, timescale: u32) -> usize
    requires { n < 2 ^ 32 }
    ensures { result ≡ length (groups_in timescale records.now n) }
{
    let mut none = [0u8; 1];
    fill(records, n, timescale, &mut none)
}

// The entries of stsc for the first n records, and their length.
pub fn entries(records: &[u64], n: usize, timescale: u32, out: &mut [u8]) -> Result<usize, Refusal>
    ensures { wrote result out.new ≡ stsc_of timescale records.now n out.old }
{
    if timescale == 0 {
        return Err(Refusal::Value(0));
    }
    if !columns::has(records, n) {
        return Err(Refusal::NoSample(n));
    }
    if columns::MANY < n {
        return Err(Refusal::Unwritable);
    }
    if !chunking::fit(records, n) {
        return Err(Refusal::Unwritable);
    }
    let numbers = walk(records, n, timescale);
    let needed = numbers * 4;
    if out.len() < needed {
        return Err(Refusal::TooSmall(needed));
    }
    fill(records, n, timescale, out);
    Ok(needed)
}
