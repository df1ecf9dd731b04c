#![tactic(auto, unfolding(numbers::specs::Field::when, numbers::specs::Field::field))]
// The children of a box whose whole content is boxes, walked by their headers in file order. Positions are counted from
// the first byte of what is lent, where the box itself begins.
ghost use Rattle.std.specs.Prelude.{◌≡◌, ◌-◌, length};
ghost use Rattle.children.specs.Children.{row_of, first_in, whole_in, first_of, whole_of, place_of};

use boxes::header;
use layout::Field;
use numbers::Refusal;

// A box with no fields of its own.
pub const ROW: [Field; 8] = [
    Field::Nothing,
    Field::Nothing,
    Field::Nothing,
    Field::Nothing,
    Field::Nothing,
    Field::Nothing,
    Field::Nothing,
    Field::Nothing,
];

// The first box of this type from `from` on, in the bytes of a box up to its end.
pub fn first_from(s: &[u8], from: usize, kind: u32) -> Result<Option<usize>, Refusal>
    ensures { result ≡ first_in kind (row_of (length s.now - from) s.now from) }
{
    let mut at = from;
    while at < s.len() {
        let h = header::read(s, at, false)?;
        if h.kind == kind {
            return Ok(Some(at));
        }
        at = at + h.size;
    }
    Ok(None)
}

// The first fault from `from` on, in the bytes of a box up to its end.
fn whole_from(s: &[u8], from: usize) -> Result<(), Refusal>
    ensures { result ≡ whole_in (row_of (length s.now - from) s.now from) }
{
    let mut at = from;
    while at < s.len() {
        let h = header::read(s, at, false)?;
        at = at + h.size;
    }
    Ok(())
}

// The first child of type `kind` in a box of type `parent`, or the first fault, whichever comes first.
pub fn first(part: &[u8], parent: u32, kind: u32) -> Result<Option<usize>, Refusal>
    ensures { result ≡ first_of parent kind part.now }
{
    let got = short::read::by(part, parent, ROW)?;
    let end = got.end;
    let place = got.place;
    first_from(&part[..end], place, kind)
}

// Whether the headers of a box of this type and of its children have no fault; or the first fault.
pub fn whole(part: &[u8], parent: u32) -> Result<(), Refusal>
    ensures { result ≡ whole_of parent part.now }
{
    let got = short::read::by(part, parent, ROW)?;
    let end = got.end;
    let place = got.place;
    whole_from(&part[..end], place)
}

// The place alone: absent where there is no such child, or where a fault comes before it.
pub fn place_of(part: &[u8], parent: u32, kind: u32) -> Option<usize>
    ensures { result ≡ place_of parent kind part.now }
{
    match first(part, parent, kind) {
        Ok(Some(p)) => Some(p),
        Ok(None) => None,
        Err(_) => None,
    }
}
