// Writing a box with a short row.
ghost use Rattle.std.specs.Prelude.{◌≡◌, []};
ghost use Rattle.put.specs.Put.{wrote};
ghost use Rattle.layout.specs.Write.{write_of, padded, slotted};

use crate::wide;
use layout::Field;
use numbers::Refusal;

// The slots of the whole row.
fn slots(values: [u64; 8]) -> [u64; 24]
    ensures { result ≡ slotted values }
{
    [
        values[0], values[1], values[2], values[3], values[4], values[5], values[6], values[7], 0,
        0, 0, 0, 0, 0, 0, 0, 0, 0, 0, 0, 0, 0, 0, 0,
    ]
}

pub fn by(
    out: &mut [u8],
    kind: u32,
    row: [Field; 8],
    values: [u64; 8],
    tail: &[u8],
) -> Result<usize, Refusal>
    ensures { wrote result out.new ≡ write_of kind (padded row) (slotted values) tail.now out.old }
{
    layout_write::by(out, kind, wide(row), slots(values), tail)
}

// A box with no tail.
pub fn plain(out: &mut [u8], kind: u32, row: [Field; 8], values: [u64; 8]) -> Result<usize, Refusal>
    ensures { wrote result out.new ≡ write_of kind (padded row) (slotted values) [] out.old }
{
    layout_write::plain(out, kind, wide(row), slots(values))
}
