#![tactic(auto, unfolding(numbers::specs::Field::when, numbers::specs::Field::field))]
// What a track's tables say of one sample, by its number, counted from 0: entries are passed over whole, and no sample
// is visited on the way. Nothing is refused here.
ghost use Rattle.std.specs.Prelude.{◌≡◌, ◌≤◌, min, length};
ghost use Rattle.tables.specs.Tables.{values_of};
ghost use Rattle.tables.specs.Rows.{rows_of};
ghost use Rattle.seek.specs.Seek.{value_of, per_chunk, spot_of, span_of, longest, words_sum};

use tables::{Rows, Sizes};

// A value and the sum of those before it; or how many there are, where they are too few.
#[derive(Clone, Copy)]
pub enum Value {
    At { value: u32, sum: u64 },
    Few(u32),
}

// A chunk, counted from 0, and how many samples of it come before; or how many there are, where they are too few.
#[derive(Clone, Copy)]
pub enum Spot {
    At { chunk: u32, within: u32 },
    Few(u32),
}

// The value of sample k in a table of runs, and the sum of the values before it.
#[inline(always)]
pub fn value_at(file: &[u8], rows: Rows, k: u32) -> Value
    ensures { result ≡ value_of (values_of (rows_of file.now rows)) k }
{
    let mut i = 0;
    let mut left = k;
    let mut sum = 0;
    while i < rows.count {
        let e = tables::entry(file, rows, i);
        let value = e.value;
        let many = e.count;
        if (left as u64) < many {
            return Value::At {
                value,
                sum: sum + (left as u64) * (value as u64),
            };
        }
        sum += many * (value as u64);
        left -= many as u32;
        i += 1;
    }
    Value::Few(k - left)
}

// The lesser of two numbers.
fn least(a: u64, b: u64) -> u64
    ensures { result ≡ min a b }
{
    if a < b {
        return a;
    }
    b
}

// The chunk of sample k, by stsc's rows, and how many samples of that chunk come before it. No row reaches past the
// last chunk.
#[inline(always)]
pub fn chunk_at(file: &[u8], rows: Rows, k: u32) -> Spot
    ensures { result ≡ spot_of (per_chunk file.now rows) k }
{
    let all = rows.chunks as u64;
    let mut i = 0;
    let mut left = k as u64;
    let mut chunk = 0;
    while i < rows.count {
        let e = tables::entry(file, rows, i);
        let many = least(e.count, all - chunk);
        let per = e.value as u64;
        let inside = many * per;
        if left < inside {
            return Spot::At {
                chunk: (chunk + left / per) as u32,
                within: (left % per) as u32,
            };
        }
        left -= inside;
        chunk += many;
        i += 1;
    }
    Spot::Few(k - (left as u32))
}

// The numbers of four bytes in a part, added in 64 bits: its length alone bounds the walk, so that a number costs one
// test. Bytes at the end that are no whole number count nothing.
fn sum_of(part: &[u8]) -> u64
    requires { length part.now ≤ longest }
    ensures { result ≡ words_sum part.now }
{
    let mut i = 0;
    let mut sum = 0;
    while i < part.len() {
        let Ok(n) = numbers::read::<u32>(part, i) else {
            return sum;
        };
        sum += n as u64;
        i += 4;
    }
    sum
}

// The listed sizes from sample `from` up to sample `to`, without it: those that the file does not hold are 0.
fn listed_span(file: &[u8], t: Sizes, from: u32, to: u32) -> u64
    requires { t.common ≡ 0 }
    ensures { result ≡ span_of file.now t from to }
{
    if to <= from {
        return 0;
    }
    if file.len() < t.at {
        return 0;
    }
    let skipped = (from as usize) * 4;
    if file.len() - t.at < skipped {
        return 0;
    }
    let start = t.at + skipped;
    let long = ((to - from) as usize) * 4;
    if file.len() - start < long {
        return sum_of(&file[start..]);
    }
    let end = start + long;
    sum_of(&file[start..end])
}

// The bytes of the samples from `from` up to `to`, without it. A common size needs no visit.
pub fn span(file: &[u8], t: Sizes, from: u32, to: u32) -> u64
    ensures { result ≡ span_of file.now t from to }
{
    if t.common == 0 {
        return listed_span(file, t, from, to);
    }
    if to <= from {
        return 0;
    }
    ((to - from) as u64) * (t.common as u64)
}
