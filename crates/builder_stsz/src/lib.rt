#![tactic(auto, unfolding(numbers::specs::Field::when, numbers::specs::Field::field))]
// The sample sizes (ISO/IEC 14496-12, 8.7.3.2): one that all samples have in common, or a list.
ghost use Rattle.std.specs.Prelude.{◌≡◌, ◌^◌, ◌<◌};
ghost use Rattle.put.specs.Put.{wrote};
ghost use Rattle.columns.specs.Columns.{lows_of};
ghost use Rattle.columns.specs.Entries.{Filled};
ghost use Rattle.builder.specs.Built.{all_same, common_in, stsz_of};

use columns::{Rule, SIZE};
use numbers::Refusal;

// Whether each of the first n sizes is this one.
fn all_same(records: &[u64], n: usize, size: u32) -> bool
    ensures { result ≡ all_same size (lows_of records.now n 2) }
{
    let mut i = 0;
    while i < n {
        let x = columns::low(records, i, SIZE);
        if x != size {
            return false;
        }
        i += 1;
    }
    true
}

// The size that the first n records have in common; 0 where they have none, or it is 0, or a size has no 32 bits.
pub fn common(records: &[u64], n: usize) -> u32
    ensures { result ≡ common_in records.now n }
{
    if n == 0 {
        return 0;
    }
    if !columns::all_right(records, n, SIZE, Rule::Narrow) {
        return 0;
    }
    let first = columns::low(records, 0, SIZE);
    if all_same(records, n, first) {
        return first;
    }
    0
}

// The sizes, put as far as the buffer has room.
fn fill(records: &[u64], n: usize, out: &mut [u8])
    requires { n < 2 ^ 32 }
    ensures { Filled (lows_of records.now n 2) out.old out.new n }
{
    let mut i: usize = 0;
    while i < n {
        let size = columns::low(records, i, SIZE);
        columns::word(out, i, size);
        i += 1;
    }
}

// The entries of stsz for the first n records, and their length: none where the size is common.
pub fn entries(records: &[u64], n: usize, out: &mut [u8]) -> Result<usize, Refusal>
    ensures { wrote result out.new ≡ stsz_of records.now n out.old }
{
    if !columns::has(records, n) {
        return Err(Refusal::NoSample(n));
    }
    if columns::MANY < n {
        return Err(Refusal::Unwritable);
    }
    if !columns::all_right(records, n, SIZE, Rule::Narrow) {
        return Err(Refusal::Unwritable);
    }
    let size = common(records, n);
    if size != 0 {
        return Ok(0);
    }
    let needed = n * 4;
    if out.len() < needed {
        return Err(Refusal::TooSmall(needed));
    }
    fill(records, n, out);
    Ok(needed)
}
