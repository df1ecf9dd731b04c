#![tactic(auto, unfolding(numbers::specs::Field::when, numbers::specs::Field::field))]
// A box in bytes that are boxes, as the part of them where it lies: the first of a type, or one by its number.
ghost use Rattle.std.specs.Prelude.{◌≡◌, length, false};
ghost use Rattle.boxes.specs.Header.{header_of};
ghost use Rattle.children.specs.Children.{row_of, boxed, nth_in, child_of, nth_of};

use boxes::header;
use numbers::Refusal;

// The box that is `i` boxes behind the first byte.
fn nth_place(s: &[u8], i: u32) -> Result<Option<usize>, Refusal>
    ensures { result ≡ nth_in i (row_of (length s.now) s.now 0) }
{
    let mut place = 0;
    let mut left = i;
    while place < s.len() {
        let h = header::read(s, place, false)?;
        if left == 0 {
            return Ok(Some(place));
        }
        left = left - 1;
        place = place + h.size;
    }
    Ok(None)
}

// The bytes of the box at `at`, from its header to its end; no bytes where its header is refused.
fn box_at(s: &[u8], at: usize) -> &[u8]
    ensures { result.now ≡ boxed s.now at (header_of s.now at false) }
{
    match header::read(s, at, false) {
        Ok(h) => {
            let size = h.size;
            parts::part(s, at, size)
        }
        Err(_) => &s[..0],
    }
}

// The first box of this type in bytes that are boxes, as the part where it lies, from its header to its end; no bytes
// where there is none, or where a fault comes before it.
pub fn first_box(s: &[u8], kind: u32) -> &[u8]
    ensures { result.now ≡ child_of kind s.now }
{
    match children::first_from(s, 0, kind) {
        Ok(Some(p)) => box_at(s, p),
        Ok(None) => &s[..0],
        Err(_) => &s[..0],
    }
}

// The same of the i-th box, counted from 0.
pub fn nth_box(s: &[u8], i: u32) -> &[u8]
    ensures { result.now ≡ nth_of i s.now }
{
    match nth_place(s, i) {
        Ok(Some(place)) => box_at(s, place),
        Ok(None) => &s[..0],
        Err(_) => &s[..0],
    }
}
