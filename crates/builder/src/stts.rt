// The decoding times (ISO/IEC 14496-12, 8.6.1.2): the durations of the samples, in the fewest pairs.
ghost use Rattle.std.specs.Prelude.{◌≡◌};
ghost use Rattle.put.specs.Put.{wrote};
ghost use Rattle.builder.specs.Built.{stts_of};

use crate::pairs::built;
use columns::Rule;
use numbers::Refusal;

// The entries of stts for the first n records, and their length.
pub fn entries(records: &[u64], n: usize, out: &mut [u8]) -> Result<usize, Refusal>
    ensures { wrote result out.new ≡ stts_of records.now n out.old }
{
    if !columns::has(records, n) {
        return Err(Refusal::NoSample(n));
    }
    if columns::MANY < n {
        return Err(Refusal::Unwritable);
    }
    if !columns::all_right(records, n, columns::DURATION, Rule::Narrow) {
        return Err(Refusal::Unwritable);
    }
    built(records, n, columns::DURATION, out)
}
