#![tactic(auto, unfolding(numbers::specs::Field::when, numbers::specs::Field::field))]
// Writers of numbers into a lent buffer. A refusal leaves the buffer as it was; bytes outside of the number's always stay.
ghost use Rattle.std.specs.Prelude.{◌≡◌, ◌+◌, ◌-◌, ◌^◌, ◌≤◌, length, ltb};
ghost use Rattle.std.proofs.lemmas.List.Edits.{sets};
ghost use Rattle.numbers.specs.Number.{bytes};
ghost use Rattle.put.specs.Put.{wrote, placed, put_of};

use numbers::{Number, Refusal};

// 256 to the power of w.
const POWERS: [u64; 8] = [
    1,
    0x100,
    0x1_0000,
    0x100_0000,
    0x1_0000_0000,
    0x100_0000_0000,
    0x1_0000_0000_0000,
    0x100_0000_0000_0000,
];

fn power(w: usize) -> u64
    requires { w ≤ 7 }
    ensures { result ≡ 256 ^ w }
{
    POWERS[w]
}

// The w bytes of n from `at` on.
fn store(buf: &mut [u8], at: usize, w: usize, n: u64)
    requires { (at + w ≤ length buf.old) × (w ≤ 8) }
    ensures { buf.new ≡ sets buf.old at (bytes w n) }
{
    let mut left = w;
    let mut p = at;
    while 0 < left {
        left = left - 1;
        buf[p] = (n / power(left) % 256) as u8;
        p = p + 1;
    }
}

// Whether n has at most w bytes, for w up to 8.
fn has_bytes(n: u64, w: usize) -> bool
    requires { w ≤ 8 }
    ensures { result ≡ ltb n (256 ^ w) }
{
    if w == 8 {
        return true;
    }
    n < power(w)
}

// n in w bytes at `at`.
pub fn number(buf: &mut [u8], at: usize, w: usize, n: u64) -> Result<usize, Refusal>
    ensures { wrote result buf.new ≡ put_of w n at buf.old }
{
    if 8 < w {
        return Err(Refusal::Unwritable);
    }
    if !has_bytes(n, w) {
        return Err(Refusal::Unwritable);
    }
    if 0xffff_ffff_ffff_ffff - w < at {
        return Err(Refusal::Overflow);
    }
    let end = at + w;
    if buf.len() < end {
        return Err(Refusal::TooSmall(end));
    }
    store(buf, at, w, n);
    Ok(end)
}

/// x at `at`, in as many bytes as its type has.
pub fn write<T: Number>(buf: &mut [u8], at: usize, x: T) -> Result<usize, Refusal>
    ensures { wrote result buf.new ≡ put_of T.WIDTH (T.number_of x) at buf.old }
{
    number(buf, at, T::WIDTH, x.number())
}

// The bytes of `part` from `at` on.
fn copy(buf: &mut [u8], at: usize, part: &[u8])
    requires { at + length part.now ≤ length buf.old }
    ensures { buf.new ≡ sets buf.old at part.now }
{
    let mut i = 0;
    while i < part.len() {
        buf[at + i] = part[i];
        i = i + 1;
    }
}

// The bytes of another slice, at `at`.
pub fn part(buf: &mut [u8], at: usize, part: &[u8]) -> Result<usize, Refusal>
    ensures { wrote result buf.new ≡ placed part.now (length part.now) at buf.old }
{
    if 0xffff_ffff_ffff_ffff - part.len() < at {
        return Err(Refusal::Overflow);
    }
    let after = at + part.len();
    if buf.len() < after {
        return Err(Refusal::TooSmall(after));
    }
    copy(buf, at, part);
    Ok(after)
}
