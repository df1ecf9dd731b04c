#![tactic(auto, unfolding(numbers::specs::Field::when, numbers::specs::Field::field))]
// Whether a box that is a row of fields (`layout`) is canonical: byte for byte as its writer writes it.
ghost use Rattle.std.specs.Prelude.{◌≡◌, ◌≤◌, length};
ghost use Rattle.layout.specs.Canonical.{exact, canonical_of, ours};

use layout::rule::Rule;
use layout::{Field, rule};

// A value that is written in a field: in its range, and its own where it has one.
fn is_ours(r: Rule, x: u64) -> bool
    ensures { result ≡ ours r x }
{
    if x < r.low {
        return false;
    }
    if r.high < x {
        return false;
    }
    if r.kept {
        return true;
    }
    x == r.fixed
}

// The fields behind the header are as they are written, and `rest` bytes follow them.
fn row_is(b: &[u8], row: [Field; 24], rest: u64) -> bool
    requires { 8 ≤ length b.now }
    ensures { result ≡ exact row rest b.now 8 0 0 }
{
    let mut at = 8;
    let mut version = 0;
    let mut flags = 0;
    let mut i = 0;
    while i < 24 {
        let f = row[i];
        let r = rule::rule_of(f, version, flags);
        let width = r.width;
        let Ok(x) = numbers::number_at(b, at, width) else {
            return false;
        };
        if !is_ours(r, x) {
            return false;
        }
        if r.version {
            version = x;
        }
        if r.flags {
            flags = x;
        }
        at = at + width;
        i = i + 1;
    }
    (b.len() - at) as u64 == rest
}

// Whether the bytes are one box of this type as it is written: its size is their length, in 4 bytes; each field is
// allowed, the reserved ones have their values; and `rest` bytes follow the fields.
pub fn by(b: &[u8], kind: u32, row: [Field; 24], rest: u64) -> bool
    ensures { result ≡ canonical_of kind row rest b.now }
{
    let Ok(size) = numbers::read::<u32>(b, 0) else {
        return false;
    };
    if size as usize != b.len() {
        return false;
    }
    let Ok(found) = numbers::read::<u32>(b, 4) else {
        return false;
    };
    if found != kind {
        return false;
    }
    row_is(b, row, rest)
}
