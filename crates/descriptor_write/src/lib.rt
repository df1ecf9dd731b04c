#![tactic(auto, unfolding(numbers::specs::Field::when, numbers::specs::Field::field))]
// The writer of what every descriptor begins with (`descriptor`): its tag, and its length in 7 bits a byte.
ghost use Rattle.std.specs.Prelude.{◌≡◌, ◌+◌, ◌^◌, ◌≤◌, length};
ghost use Rattle.std.proofs.lemmas.List.Edits.{sets};
ghost use Rattle.put.specs.Put.{wrote};
ghost use Rattle.descriptor.specs.Descriptor.{size_for, high, groups, length_in, head_in};

use numbers::Refusal;

// How many bytes the shortest form of a length has.
pub fn length_size(value: u32) -> usize
    ensures { result ≡ size_for value }
{
    if value < 0x80 {
        return 1;
    }
    if value < 0x4000 {
        return 2;
    }
    if value < 0x20_0000 {
        return 3;
    }
    4
}

// The longest that four bytes hold.
const LONGEST: u32 = 0xfff_ffff;

// 128 to the power of w.
const POWERS: [u32; 4] = [1, 0x80, 0x4000, 0x20_0000];

fn power(w: usize) -> u32
    requires { w ≤ 3 }
    ensures { result ≡ 128 ^ w }
{
    POWERS[w]
}

// The high bit of a byte that has `left` more behind it.
fn high_bit(left: usize) -> u8
    ensures { result ≡ high left }
{
    if left == 0 { 0 } else { 128 }
}

// The length in w bytes from `at` on.
fn store(out: &mut [u8], at: usize, w: usize, value: u32)
    requires { (at + w ≤ length out.old) × (w ≤ 4) }
    ensures { out.new ≡ sets out.old at (groups w value) }
{
    let mut left = w;
    let mut p = at;
    while 0 < left {
        left = left - 1;
        out[p] = high_bit(left) + (value / power(left) % 128) as u8;
        p = p + 1;
    }
}

// The length at `at`, in its shortest form; 13 where four bytes do not hold it.
pub fn put_length(out: &mut [u8], at: usize, value: u32) -> Result<usize, Refusal>
    ensures { wrote result out.new ≡ length_in value at out.old }
{
    if LONGEST < value {
        return Err(Refusal::Unwritable);
    }
    let w = length_size(value);
    if 0xffff_ffff_ffff_ffff - w < at {
        return Err(Refusal::Overflow);
    }
    let end = at + w;
    if out.len() < end {
        return Err(Refusal::TooSmall(end));
    }
    store(out, at, w, value);
    Ok(end)
}

// The tag and the length at `at`. There is room for both before the first is written.
pub fn put_head(out: &mut [u8], at: usize, tag: u8, value: u32) -> Result<usize, Refusal>
    ensures { wrote result out.new ≡ head_in tag value at out.old }
{
    if LONGEST < value {
        return Err(Refusal::Unwritable);
    }
    let w = length_size(value);
    let both = w + 1;
    if 0xffff_ffff_ffff_ffff - both < at {
        return Err(Refusal::Overflow);
    }
    let end = at + both;
    if out.len() < end {
        return Err(Refusal::TooSmall(end));
    }
    out[at] = tag;
    store(out, at + 1, w, value);
    Ok(end)
}
