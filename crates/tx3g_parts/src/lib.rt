#![tactic(auto)]
// The boxes of tx3g, how timed text is shown (`tx3g`), lent where they lie.
ghost use Rattle.std.specs.Prelude.{◌≡◌};
ghost use Rattle.tx3g.specs.Tx3g.{boxes_of};

use tx3g::{KIND, ROW};

// The boxes behind the fields, as the part of the box where they lie; no bytes where the box is refused.
pub fn rest(part: &[u8]) -> &[u8]
    ensures { result.now ≡ boxes_of part.now }
{
    layout::read::rest(part, KIND, ROW)
}
