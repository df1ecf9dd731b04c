#![tactic(auto, unfolding(numbers::specs::Field::when, numbers::specs::Field::field))]
// Writing a box that is a row of fields (`layout`): its fields' bytes first, in an array of its own; then header, fields
// and tail into the lent buffer.
ghost use Rattle.std.specs.Prelude.{◌≡◌, [], ◌≤◌, length};
ghost use Rattle.numbers.specs.Field.{when};
ghost use Rattle.put.specs.Put.{wrote};
ghost use Rattle.layout.specs.Read.{zeros};
ghost use Rattle.layout.specs.Write.{encode, coded_of, badly, write_of};

use boxes::header;
use layout::{Coded, Field, rule};
use numbers::Refusal;

fn choose(kept: bool, a: u64, b: u64) -> u64
    ensures { result ≡ when kept a b }
{
    if kept { a } else { b }
}

fn uncoded() -> Coded
    ensures { result ≡ badly }
{
    Coded {
        ok: false,
        len: 0,
        bytes: [0; 192],
    }
}

// The fields' bytes, field after field.
fn code(row: [Field; 24], values: [u64; 24]) -> Coded
    ensures { (result ≡ coded_of (zeros 192) 0 (encode row values 0 0 0)) × (result.len ≤ 192) }
{
    let mut bytes = [0; 192];
    let mut len = 0;
    let mut slot = 0;
    let mut version = 0;
    let mut flags = 0;
    let mut i = 0;
    while i < 24 {
        let f = row[i];
        let r = rule::rule_of(f, version, flags);
        let width = r.width;
        let x = choose(r.kept, values[slot], r.fixed);
        if x < r.low {
            return uncoded();
        }
        if r.high < x {
            return uncoded();
        }
        let _ = put::number(&mut bytes, len, width, x);
        if r.kept {
            slot = slot + 1;
        }
        version = choose(r.version, x, version);
        flags = choose(r.flags, x, flags);
        len = len + width;
        i = i + 1;
    }
    Coded {
        ok: true,
        len,
        bytes,
    }
}

// A box of this type: header, fields and tail, from the buffer's start on. Its length; or 13 where a value or the size
// can not be written, and last 12 with the length needed, and the buffer as it was.
pub fn by(
    buf: &mut [u8],
    kind: u32,
    row: [Field; 24],
    values: [u64; 24],
    tail: &[u8],
) -> Result<usize, Refusal>
    ensures { wrote result buf.new ≡ write_of kind row values tail.now buf.old }
{
    let coded = code(row, values);
    if !coded.ok {
        return Err(Refusal::Unwritable);
    }
    let len = coded.len;
    if 0xffff_ffff - 8 - len < tail.len() {
        return Err(Refusal::Unwritable);
    }
    let total = 8 + len + tail.len();
    if buf.len() < total {
        return Err(Refusal::TooSmall(total));
    }
    let bytes = coded.bytes;
    let _ = header::write(buf, 0, kind, total);
    let _ = put::part(buf, 8, &bytes[..len]);
    let _ = put::part(buf, 8 + len, tail);
    Ok(total)
}

// A box with no tail.
pub fn plain(
    buf: &mut [u8],
    kind: u32,
    row: [Field; 24],
    values: [u64; 24],
) -> Result<usize, Refusal>
    ensures { wrote result buf.new ≡ write_of kind row values [] buf.old }
{
    let none = [0; 1];
    by(buf, kind, row, values, &none[..0])
}
