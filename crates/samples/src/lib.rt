#![tactic(auto, unfolding(numbers::specs::Field::when, numbers::specs::Field::field))]
// A sample of a track, wherever it is told: by tables or by runs; and a list of samples as a row of numbers, since that
// is what can be lent.
ghost use Rattle.std.specs.Prelude.{◌≡◌};
ghost use Rattle.samples.specs.Records.{bits_of, bit_of, put_of};

use numbers::Refusal;

// A sample: numbers count from 1, a composition offset counts from the time.
#[derive(Clone, Copy)]
pub struct Sample {
    pub number: u32,
    pub offset: u64,
    pub size: u32,
    pub time: u64,
    pub duration: u32,
    pub composition: i64,
    pub sync: bool,
}

// What a lookup tells of a sample: its place, its size and its times. Whether it is sync is asked by itself, since the
// answer stands in a list that may be long.
#[derive(Clone, Copy)]
pub struct Located {
    pub offset: u64,
    pub size: u32,
    pub time: u64,
    pub duration: u32,
    pub composition: i64,
}

// How many numbers a record has: number, offset, size, time, duration, composition offset, sync.
pub const RECORD: usize = 7;

// The last position that a sample may end at, and the first time that none has (9).
pub const LAST: u64 = 0xFFFF_FFFF_FFFF_FFFF;

pub const TIME_BOUND: u64 = 0x8000_0000_0000_0000;

const ALL_ONES: u64 = 0xFFFF_FFFF_FFFF_FFFF;

// The 64 bits of a signed number, in two's complement.
fn bits(c: i64) -> u64
    ensures { result ≡ bits_of c }
{
    if c < 0 {
        let d = -1 - c;
        return ALL_ONES - (d as u64);
    }
    c as u64
}

fn bit(b: bool) -> u64
    ensures { result ≡ bit_of b }
{
    if b {
        return 1;
    }
    0
}

// Sample s as record i, counted from 0; nothing is written where it has no room.
pub fn put(out: &mut [u64], i: usize, s: Sample)
    ensures { out.new ≡ put_of out.old i s }
{
    if out.len() / RECORD <= i {
        return;
    }
    let at = i * RECORD;
    let composition = s.composition;
    let shift = bits(composition);
    let sync = bit(s.sync);
    out[at] = s.number as u64;
    out[at + 1] = s.offset;
    out[at + 2] = s.size as u64;
    out[at + 3] = s.time;
    out[at + 4] = s.duration as u64;
    out[at + 5] = shift;
    out[at + 6] = sync;
}
