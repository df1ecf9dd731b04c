// The entries of stts and ctts: pairs of a count and a value, as few as there can be.
ghost use Rattle.std.specs.Prelude.{◌≡◌, ◌^◌, ◌<◌, length};
ghost use Rattle.put.specs.Put.{wrote};
ghost use Rattle.merging.specs.Merging.{rows_of};
ghost use Rattle.columns.specs.Entries.{placed_of, Filled, Emitted};
ghost use Rattle.builder.specs.Built.{pairs_of, runs_of};

use merging::{Open, Step};
use numbers::Refusal;

// The run that a step closed, if any, as the k-th number and the next; and the place after it.
fn put_closed(out: &mut [u8], k: usize, step: Step) -> usize
    requires { k < 2 ^ 60 }
    ensures { Emitted (pairs_of (rows_of step)) out.old k out.new result }
{
    match step {
        Step::Longer(_) => k,
        Step::Closed { run, open: _ } => {
            columns::word(out, k, run.count);
            columns::word(out, k + 1, run.value);
            k + 2
        }
    }
}

// The pairs of a column, put as far as the buffer has room, and how many numbers they are. One loop serves the count and
// the entries, so that the runs are merged in one place.
fn fill(records: &[u64], n: usize, column: usize, out: &mut [u8]) -> usize
    requires { n < 2 ^ 32 }
    ensures { Filled (runs_of records.now n column) out.old out.new result }
{
    let mut run = Open::fresh();
    let mut k: usize = 0;
    let mut i: usize = 0;
    while i < n {
        let value = columns::low(records, i, column);
        let step = run.next(value);
        k = put_closed(out, k, step);
        run = step.after();
        i += 1;
    }
    let last = run.finish();
    put_closed(out, k, last)
}

// The numbers counted, by a buffer that has room for none.
fn walk(records: &[u64], n: usize, column: usize) -> usize
    requires { n < 2 ^ 32 }
    ensures { result ≡ length (runs_of records.now n column) }
{
    let mut none = [0u8; 1];
    fill(records, n, column, &mut none)
}

// The pairs of a column at the buffer's start; or 12.
pub(crate) fn built(
    records: &[u64],
    n: usize,
    column: usize,
    out: &mut [u8],
) -> Result<usize, Refusal>
    requires { n < 2 ^ 32 }
    ensures { wrote result out.new ≡ placed_of (runs_of records.now n column) out.old }
{
    let numbers = walk(records, n, column);
    let needed = numbers * 4;
    if out.len() < needed {
        return Err(Refusal::TooSmall(needed));
    }
    fill(records, n, column, out);
    Ok(needed)
}
