#![tactic(auto, unfolding(numbers::specs::Field::when, numbers::specs::Field::field))]
// Where the boxes of a track's tables lie in an stbl (ISO/IEC 14496-12, 8.5.1).
ghost use Rattle.std.specs.Prelude.{◌≡◌};
ghost use Rattle.tableboxes.specs.TableBoxes.{span_at, span_of, boxes_of};

use boxes::header;
use numbers::Refusal;
use places::kinds;
use stbl::Boxes;

// The span of the box whose header begins at `at`.
fn span_at(part: &[u8], at: usize) -> Option<(usize, usize)>
    ensures { result ≡ span_at part.now at }
{
    match header::read(part, at, false) {
        Ok(h) => Some((at, h.size)),
        Err(_) => None,
    }
}

// The first child of this type.
fn span_of(part: &[u8], kind: u32) -> Option<(usize, usize)>
    ensures { result ≡ span_of kind part.now }
{
    let at = children::place_of(part, kinds::STBL, kind)?;
    span_at(part, at)
}

// Where the boxes of an stbl lie, counted from its own first byte: the first of each type.
pub fn find(part: &[u8]) -> Result<Boxes, Refusal>
    ensures { result ≡ boxes_of part.now }
{
    children::whole(part, kinds::STBL)?;
    Ok(Boxes {
        stts: span_of(part, kinds::STTS),
        ctts: span_of(part, kinds::CTTS),
        stsc: span_of(part, kinds::STSC),
        stsz: span_of(part, kinds::STSZ),
        stco: span_of(part, kinds::STCO),
        co64: span_of(part, kinds::CO64),
        stss: span_of(part, kinds::STSS),
    })
}
