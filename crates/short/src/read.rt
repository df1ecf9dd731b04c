// Reading a box with a short row.
ghost use Rattle.std.specs.Prelude.{◌≡◌};
ghost use Rattle.layout.specs.Read.{read_of, rest_of};
ghost use Rattle.layout.specs.Write.{padded};

use crate::wide;
use layout::Field;
use layout::read::Fields;
use numbers::Refusal;

pub fn by(part: &[u8], kind: u32, row: [Field; 8]) -> Result<Fields, Refusal>
    ensures { result ≡ read_of kind (padded row) part.now }
{
    layout::read::by(part, kind, wide(row))
}

// What lies behind the fields, as the part of the lent bytes where it lies.
pub fn rest(part: &[u8], kind: u32, row: [Field; 8]) -> &[u8]
    ensures { result.now ≡ rest_of (read_of kind (padded row) part.now) part.now }
{
    layout::read::rest(part, kind, wide(row))
}
