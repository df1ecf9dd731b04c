#![tactic(auto, unfolding(numbers::specs::Field::when, numbers::specs::Field::field))]
// The sync samples (ISO/IEC 14496-12, 8.6.2): their numbers, counted from 1. Where no sample is sync there is no entry, and
// the box is there all the same (A56).
ghost use Rattle.std.specs.Prelude.{◌≡◌, ◌^◌, ◌<◌, length};
ghost use Rattle.put.specs.Put.{wrote};
ghost use Rattle.columns.specs.Entries.{Filled, Emitted};
ghost use Rattle.builder.specs.Built.{sync_word, syncs_in, stss_of};

use columns::SYNC;
use numbers::Refusal;

// The number of a sample as the k-th, if it is sync; and the place after it.
fn put_sync(out: &mut [u8], k: usize, sync: u64, number: u32) -> usize
    requires { k < 2 ^ 60 }
    ensures { Emitted (sync_word sync number) out.old k out.new result }
{
    if sync == 0 {
        return k;
    }
    columns::word(out, k, number);
    k + 1
}

// The numbers of the sync samples, put as far as the buffer has room, and how many they are.
fn fill(records: &[u64], n: usize, out: &mut [u8]) -> usize
    requires { n < 2 ^ 32 }
    ensures { Filled (syncs_in records.now n) out.old out.new result }
{
    let mut k: usize = 0;
    let mut i: usize = 0;
    while i < n {
        let sync = columns::cell(records, i, SYNC);
        let number = (i + 1) as u32;
        k = put_sync(out, k, sync, number);
        i += 1;
    }
    k
}

// They are counted, by a buffer that has room for none.
fn walk(records: &[u64], n: usize) -> usize
    requires { n < 2 ^ 32 }
    ensures { result ≡ length (syncs_in records.now n) }
{
    let mut none = [0u8; 1];
    fill(records, n, &mut none)
}

// The entries of stss for the first n records, and their length.
pub fn entries(records: &[u64], n: usize, out: &mut [u8]) -> Result<usize, Refusal>
    ensures { wrote result out.new ≡ stss_of records.now n out.old }
{
    if !columns::has(records, n) {
        return Err(Refusal::NoSample(n));
    }
    if columns::MANY < n {
        return Err(Refusal::Unwritable);
    }
    let numbers = walk(records, n);
    let needed = numbers * 4;
    if out.len() < needed {
        return Err(Refusal::TooSmall(needed));
    }
    fill(records, n, out);
    Ok(needed)
}
