#![tactic(auto, unfolding(numbers::specs::Field::when, numbers::specs::Field::field))]
// What the tables of a track are built from and into: the samples as records of seven numbers, column by column, and the
// entries of a table as numbers of four bytes in a lent buffer, one behind the other.
ghost use Rattle.std.specs.Prelude.{◌≡◌, ◌*◌, length, leb};
ghost use Rattle.columns.specs.Columns.{meets, cell_of, low_at, column_of, all_meet};
ghost use Rattle.columns.specs.Entries.{word_of};

use samples::RECORD;

// The numbers of a record that tables are built from, by their place in it.
pub const OFFSET: usize = 1;

pub const SIZE: usize = 2;

pub const DURATION: usize = 4;

pub const COMPOSITION: usize = 5;

pub const SYNC: usize = 6;

// How many samples a table can count, and so number: 32 bits.
pub const MANY: usize = 0xFFFF_FFFF;

// What a number of a record may be asked for: to be 0, to have 32 bits, or to be a signed number of 32 bits in the two's
// complement of 64.
#[derive(Clone, Copy)]
pub enum Rule {
    Zero,
    Narrow,
    Signed,
}

const NARROW: u64 = 0x1_0000_0000;

const POSITIVE: u64 = 0x8000_0000;

const NEGATIVE: u64 = 0xFFFF_FFFF_8000_0000;

// Whether the buffer has that many records.
pub fn has(records: &[u64], n: usize) -> bool
    ensures { result ≡ leb (n * 7) (length records.now) }
{
    n <= records.len() / RECORD
}

// The number of record i in that column; 0 where there is none.
pub fn cell(records: &[u64], i: usize, column: usize) -> u64
    ensures { result ≡ cell_of records.now column i }
{
    if RECORD <= column {
        return 0;
    }
    if records.len() / RECORD <= i {
        return 0;
    }
    records[i * RECORD + column]
}

// Its lower 32 bits.
pub fn low(records: &[u64], i: usize, column: usize) -> u32
    ensures { result ≡ low_at records.now column i }
{
    (cell(records, i, column) % NARROW) as u32
}

// Whether a number is as the rule says.
pub fn right(x: u64, rule: Rule) -> bool
    ensures { result ≡ meets rule x }
{
    match rule {
        Rule::Zero => x == 0,
        Rule::Narrow => x < NARROW,
        Rule::Signed => {
            if x < POSITIVE {
                return true;
            }
            NEGATIVE <= x
        }
    }
}

// Whether the numbers of a column, in the first n records, are all as the rule says.
pub fn all_right(records: &[u64], n: usize, column: usize, rule: Rule) -> bool
    ensures { result ≡ all_meet rule (column_of records.now n column) }
{
    let mut i = 0;
    while i < n {
        let x = cell(records, i, column);
        if !right(x, rule) {
            return false;
        }
        i += 1;
    }
    true
}

// x as the k-th number of the buffer, counted from 0; nothing is written where it has no room.
pub fn word(out: &mut [u8], k: usize, x: u32)
    ensures { out.new ≡ word_of out.old k x }
{
    if out.len() / 4 <= k {
        return;
    }
    let _ = put::write::<u32>(out, k * 4, x);
}
