#![tactic(auto, unfolding(numbers::specs::Field::when, numbers::specs::Field::field))]
// The sample entry of an AVC track (ISO/IEC 14496-15, 5.4.2.1): a visual sample entry whose boxes hold the configuration
// of its decoder, avcC.
ghost use Rattle.std.specs.Prelude.{◌≡◌};
ghost use Rattle.put.specs.Put.{wrote};
ghost use Rattle.avc1.specs.Avc1.{avc1_of, children_of, avcc_of, avc1_in};

use numbers::Refusal;
use visual::Visual;

pub const KIND: u32 = 0x61766331;

pub fn read(part: &[u8]) -> Result<Visual, Refusal>
    ensures { result ≡ avc1_of part.now }
{
    visual::read(part, KIND)
}

// The boxes behind the fields, as the part of the entry where they lie; no bytes where the entry is refused.
pub fn children(part: &[u8]) -> &[u8]
    ensures { result.now ≡ children_of part.now }
{
    visual_parts::children(part, KIND)
}

// The first avcC among them, as the part of the entry where it lies; no bytes where there is none, or where a fault comes
// before it.
pub fn avcc(part: &[u8]) -> &[u8]
    ensures { result.now ≡ avcc_of part.now }
{
    let boxes = visual_parts::children(part, KIND);
    boxparts::first_box(boxes, 0x61766343)
}

pub fn write(entry: Visual, children: &[u8], out: &mut [u8]) -> Result<usize, Refusal>
    ensures { wrote result out.new ≡ avc1_in entry children.now out.old }
{
    visual_write::write(entry, KIND, children, out)
}
