#![tactic(auto, unfolding(numbers::specs::Field::when, numbers::specs::Field::field))]
// Runs as rows of numbers in a lent table, since that is what can be lent: a row for each run of a file, of all tracks, in
// the order of the file.
ghost use Rattle.std.specs.Prelude.{◌≡◌, ◌+◌, ◌%◌, ◌^◌, ◌≤◌, length};
ghost use Rattle.std.proofs.lemmas.List.Edits.{sets};
ghost use Rattle.put.specs.Put.{wrote};
ghost use Rattle.runtable.specs.Table.{row_of, store_of};

use numbers::Refusal;
use runs::Run;
use trun::Trun;

// How many numbers a row has: track, start, time, at; the trun's version, flags, count, data offset and first flags;
// duration, size, flags.
pub const ROW: usize = 12;

const LAST: usize = 0xffff_ffff_ffff_ffff;

// The lower 32 bits: so every table means one thing.
fn low(n: u64) -> u32
    ensures { result ≡ n % 2 ^ 32 }
{
    (n % 0x1_0000_0000) as u32
}

// The lower 8 bits.
fn lowest(n: u64) -> u8
    ensures { result ≡ n % 2 ^ 8 }
{
    (n % 0x100) as u8
}

// The run of row i, counted from 0, where the table holds it whole.
#[tactic(auto, unfolding(numbers::specs::Field::when, numbers::specs::Field::field, crate::specs::Table::row_at))]
pub fn row(table: &[u64], i: usize) -> Option<Run>
    ensures { result ≡ row_of table.now i }
{
    if table.len() / ROW <= i {
        return None;
    }
    let at = i * ROW;
    let trun = Trun {
        version: lowest(table[at + 4]),
        flags: low(table[at + 5]),
        sample_count: low(table[at + 6]),
        data_offset: low(table[at + 7]),
        first_sample_flags: low(table[at + 8]),
    };
    Some(Run {
        track: low(table[at]),
        start: table[at + 1],
        time: table[at + 2],
        at: table[at + 3] as usize,
        trun,
        duration: low(table[at + 9]),
        size: low(table[at + 10]),
        flags: low(table[at + 11]),
    })
}

// The numbers of `part` from `at` on.
fn copy(table: &mut [u64], at: usize, part: &[u64])
    requires { at + length part.now ≤ length table.old }
    ensures { table.new ≡ sets table.old at part.now }
{
    let mut i = 0;
    while i < part.len() {
        table[at + i] = part[i];
        i = i + 1;
    }
}

// The run as row i, and the number of the row after it; TooSmall with the number of rows that are needed where there is no
// room, or Overflow where that is no 64-bit number.
pub fn store(table: &mut [u64], i: usize, run: Run) -> Result<usize, Refusal>
    ensures { wrote result table.new ≡ store_of run i table.old }
{
    if table.len() / ROW <= i {
        if i == LAST {
            return Err(Refusal::Overflow);
        }
        return Err(Refusal::TooSmall(i + 1));
    }
    let at = i * ROW;
    let after = i + 1;
    let trun = run.trun;
    let cells = [
        run.track as u64,
        run.start,
        run.time,
        run.at as u64,
        trun.version as u64,
        trun.flags as u64,
        trun.sample_count as u64,
        trun.data_offset as u64,
        trun.first_sample_flags as u64,
        run.duration as u64,
        run.size as u64,
        run.flags as u64,
    ];
    copy(table, at, &cells);
    Ok(after)
}
