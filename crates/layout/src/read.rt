// Reading a box: its header, then its fields, field after field: each first whole, then allowed.
ghost use Rattle.std.specs.Prelude.{◌≡◌, ◌≤◌, length};
ghost use Rattle.layout.specs.Read.{zeros, fields_of, decode, read_of, rest_of};

use crate::{Field, rule};
use boxes::header;
use numbers::Refusal;

// The position after the last field, the box's end, and the values kept.
#[derive(Clone, Copy)]
pub struct Fields {
    pub place: usize,
    pub end: usize,
    pub values: [u64; 24],
}

// The fields of a row, from `from` on.
fn row_at(b: &[u8], row: [Field; 24], from: usize) -> Result<Fields, Refusal>
    requires { from ≤ length b.now }
    ensures { result ≡ fields_of (length b.now) (zeros 24) 0 (decode row b.now from 0 0) }
{
    let mut values = [0; 24];
    let mut slot = 0;
    let mut at = from;
    let mut version = 0;
    let mut flags = 0;
    let mut i = 0;
    while i < 24 {
        let f = row[i];
        let r = rule::rule_of(f, version, flags);
        let width = r.width;
        let x = numbers::number_at(b, at, width)?;
        if x < r.low {
            return Err(r.refusal(at));
        }
        if r.high < x {
            return Err(r.refusal(at));
        }
        if r.kept {
            values[slot] = x;
            slot = slot + 1;
        }
        if r.version {
            version = x;
        }
        if r.flags {
            flags = x;
        }
        at = at + width;
        i = i + 1;
    }
    Ok(Fields {
        place: at,
        end: b.len(),
        values,
    })
}

// The fields of a box of this type, which is lent from its header on. Another type is 8 where the type stands.
pub fn by(b: &[u8], kind: u32, row: [Field; 24]) -> Result<Fields, Refusal>
    ensures { result ≡ read_of kind row b.now }
{
    let h = header::read(b, 0, true)?;
    if h.kind != kind {
        return Err(Refusal::Value(4));
    }
    let end = h.size;
    row_at(&b[..end], row, h.length)
}

// What lies behind the fields, up to the box's end, as the part of the lent bytes where it lies; no bytes where the box
// is refused.
pub fn rest(b: &[u8], kind: u32, row: [Field; 24]) -> &[u8]
    ensures { result.now ≡ rest_of (read_of kind row b.now) b.now }
{
    let Ok(got) = by(b, kind, row) else {
        return &b[..0];
    };
    let place = got.place;
    let end = got.end;
    if end <= place {
        return &b[..0];
    }
    &b[place..end]
}
