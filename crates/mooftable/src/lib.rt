#![tactic(auto, unfolding(numbers::specs::Field::when, numbers::specs::Field::field))]
// Moofs as rows of numbers in a lent table, since that is what can be lent: a row for each moof of a file, in the order of
// the file.
ghost use Rattle.std.specs.Prelude.{◌≡◌, ◌%◌, ◌^◌};
ghost use Rattle.put.specs.Put.{wrote};
ghost use Rattle.mooftable.specs.Table.{row_of, store_of};

use numbers::Refusal;

// How many numbers a row has: start, number, runs.
pub const ROW: usize = 3;

const LAST: usize = 0xffff_ffff_ffff_ffff;

// start: the first byte of the moof; number: its sequence number; runs: the row of its first run in the table of runs.
#[derive(Clone, Copy)]
pub struct Moof {
    pub start: u64,
    pub number: u32,
    pub runs: usize,
}

// The lower 32 bits: so every table means one thing.
fn low(n: u64) -> u32
    ensures { result ≡ n % 2 ^ 32 }
{
    (n % 0x1_0000_0000) as u32
}

// The moof of row i, counted from 0, where the table holds it whole.
pub fn row(table: &[u64], i: usize) -> Option<Moof>
    ensures { result ≡ row_of table.now i }
{
    if table.len() / ROW <= i {
        return None;
    }
    let at = i * ROW;
    Some(Moof {
        start: table[at],
        number: low(table[at + 1]),
        runs: table[at + 2] as usize,
    })
}

// The moof as row i, and the number of the row after it; 12 with the number of rows that are needed where there is no
// room, or 9 where that is no 64-bit number.
pub fn store(table: &mut [u64], i: usize, moof: Moof) -> Result<usize, Refusal>
    ensures { wrote result table.new ≡ store_of moof i table.old }
{
    if table.len() / ROW <= i {
        if i == LAST {
            return Err(Refusal::Overflow);
        }
        return Err(Refusal::TooSmall(i + 1));
    }
    let at = i * ROW;
    table[at] = moof.start;
    table[at + 1] = moof.number as u64;
    table[at + 2] = moof.runs as u64;
    Ok(i + 1)
}
