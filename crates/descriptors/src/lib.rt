#![tactic(auto, unfolding(numbers::specs::Field::when, numbers::specs::Field::field))]
// Descriptors one after the other (ISO/IEC 14496-1, 7.2.2): up to the first of two tags, each one before it skipped by its
// length; and a descriptor with its content.
ghost use Rattle.std.specs.Prelude.{◌≡◌};
ghost use Rattle.put.specs.Put.{wrote};
ghost use Rattle.descriptors.specs.Descriptors.{seek_of, descriptor_in};

use descriptor::Head;
use numbers::Refusal;

// A descriptor's tag, where it begins, and where its content lies.
#[derive(Clone, Copy)]
pub struct Sought {
    pub tag: u8,
    pub at: usize,
    pub from: usize,
    pub to: usize,
}

// The first descriptor from `at` on that has one of two tags. A tag of 256 is no descriptor's: with it every head up to
// the end is tested.
pub fn seek(s: &[u8], at: usize, one: u16, other: u16) -> Result<Option<Sought>, Refusal>
    ensures { result ≡ seek_of s.now at one other }
{
    let mut p = at;
    while p < s.len() {
        let Head { tag, from, to } = descriptor::head_at(s, p)?;
        if tag as u16 == one || tag as u16 == other {
            return Ok(Some(Sought {
                tag,
                at: p,
                from,
                to,
            }));
        }
        p = to;
    }
    Ok(None)
}

// A descriptor of this tag around its content, at `at`; 13 where the content has 2^28 bytes or more.
pub fn put(out: &mut [u8], at: usize, tag: u8, content: &[u8]) -> Result<usize, Refusal>
    ensures { wrote result out.new ≡ descriptor_in tag content.now at out.old }
{
    if 0x1000_0000 <= content.len() {
        return Err(Refusal::Unwritable);
    }
    let length = content.len() as u32;
    let head = descriptor_write::length_size(length) + 1;
    let size = head + content.len();
    if 0xffff_ffff_ffff_ffff - size < at {
        return Err(Refusal::Overflow);
    }
    let end = at + size;
    if out.len() < end {
        return Err(Refusal::TooSmall(end));
    }
    descriptor_write::put_head(out, at, tag, length)?;
    put::part(out, at + head, content)
}
