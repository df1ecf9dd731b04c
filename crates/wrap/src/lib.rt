#![tactic(auto, unfolding(numbers::specs::Field::when, numbers::specs::Field::field))]
// The bytes of a box's children, where its whole content is boxes, and a box around such bytes.
ghost use Rattle.std.specs.Prelude.{◌≡◌};
ghost use Rattle.put.specs.Put.{wrote};
ghost use Rattle.children.specs.Children.{content_of, container_in};

use children::ROW;
use numbers::Refusal;

// The children's bytes, as the part of the box where they lie; no bytes where the box's header is refused.
pub fn content(part: &[u8], parent: u32) -> &[u8]
    ensures { result.now ≡ content_of parent part.now }
{
    short::read::rest(part, parent, ROW)
}

// A box of this type around the children's bytes.
pub fn around(children: &[u8], parent: u32, out: &mut [u8]) -> Result<usize, Refusal>
    ensures { wrote result out.new ≡ container_in parent children.now out.old }
{
    short::write::by(out, parent, ROW, [0; 8], children)
}
