// The composition offsets (ISO/IEC 14496-12, 8.6.1.3), as 32 bits each, in the fewest pairs. Where all of them are 0 there
// is no entry, and the box is absent (A57).
ghost use Rattle.std.specs.Prelude.{◌≡◌};
ghost use Rattle.put.specs.Put.{wrote};
ghost use Rattle.builder.specs.Built.{ctts_of};

use crate::pairs::built;
use columns::Rule;
use numbers::Refusal;

// The entries of ctts for the first n records, and their length: 0 where the box is absent.
pub fn entries(records: &[u64], n: usize, out: &mut [u8]) -> Result<usize, Refusal>
    ensures { wrote result out.new ≡ ctts_of records.now n out.old }
{
    if !columns::has(records, n) {
        return Err(Refusal::NoSample(n));
    }
    if columns::MANY < n {
        return Err(Refusal::Unwritable);
    }
    if !columns::all_right(records, n, columns::COMPOSITION, Rule::Signed) {
        return Err(Refusal::Unwritable);
    }
    if columns::all_right(records, n, columns::COMPOSITION, Rule::Zero) {
        return Ok(0);
    }
    built(records, n, columns::COMPOSITION, out)
}
