#![tactic(auto)]
// The boxes of a visual sample entry (`visual`), of any kind, lent where they lie.
ghost use Rattle.std.specs.Prelude.{◌≡◌};
ghost use Rattle.visual.specs.Visual.{children_of};

use visual::ROW;

// The boxes behind the fields, as the part of the entry where they lie; no bytes where the entry is refused.
pub fn children(part: &[u8], kind: u32) -> &[u8]
    ensures { result.now ≡ children_of kind part.now }
{
    layout::read::rest(part, kind, ROW)
}
