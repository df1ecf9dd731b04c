#![tactic(auto, unfolding(numbers::specs::Field::when, numbers::specs::Field::field))]
// The sample entry of a VP9 track (VP Codec ISO Media File Format Binding): a visual sample entry whose boxes hold the
// configuration of its codec, vpcC.
ghost use Rattle.std.specs.Prelude.{◌≡◌};
ghost use Rattle.put.specs.Put.{wrote};
ghost use Rattle.vp09.specs.Vp09.{vp09_of, children_of, vpcc_of, vp09_in};

use numbers::Refusal;
use visual::Visual;

pub const KIND: u32 = 0x76703039;

pub fn read(part: &[u8]) -> Result<Visual, Refusal>
    ensures { result ≡ vp09_of part.now }
{
    visual::read(part, KIND)
}

// The boxes behind the fields, as the part of the entry where they lie; no bytes where the entry is refused.
pub fn children(part: &[u8]) -> &[u8]
    ensures { result.now ≡ children_of part.now }
{
    visual_parts::children(part, KIND)
}

// The first vpcC among them, as the part of the entry where it lies; no bytes where there is none, or where a fault comes
// before it.
pub fn vpcc(part: &[u8]) -> &[u8]
    ensures { result.now ≡ vpcc_of part.now }
{
    let boxes = visual_parts::children(part, KIND);
    boxparts::first_box(boxes, 0x76706343)
}

pub fn write(entry: Visual, children: &[u8], out: &mut [u8]) -> Result<usize, Refusal>
    ensures { wrote result out.new ≡ vp09_in entry children.now out.old }
{
    visual_write::write(entry, KIND, children, out)
}
