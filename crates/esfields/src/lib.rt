#![tactic(auto, unfolding(numbers::specs::Field::when, numbers::specs::Field::field))]
// The fields of an ES_Descriptor (ISO/IEC 14496-1, 7.2.6.5), of which its flags say which are there (A29).
ghost use Rattle.std.specs.Prelude.{◌≡◌, ◌+◌, ◌^◌, ◌≤◌, ◌<◌, length, ltb, Ok, Err};
ghost use Rattle.numbers.specs.Field.{field, when};
ghost use Rattle.put.specs.Put.{wrote, placed};
ghost use Rattle.esfields.specs.EsFields.{is_set, wide, fields_of, sound, field_bytes, size_of, fields_in};

use numbers::Refusal;

// The stream's number and flags, the stream that it depends on, and the one that has its clock. A number that the flags
// leave out is 0.
#[derive(Clone, Copy)]
pub struct Stream {
    pub id: u16,
    pub flags: u8,
    pub depends_on: u16,
    pub ocr_id: u16,
}

const DEPENDS: u8 = 0x80;

const URL: u8 = 0x40;

const CLOCK: u8 = 0x20;

fn is_set(flags: u8, bit: u8) -> bool
    requires { 0 < bit }
    ensures { result ≡ is_set flags bit }
{
    flags / bit % 2 == 1
}

// How many bytes a field has that is there or not.
fn width(there: bool, w: usize) -> usize
    ensures { result ≡ when there w 0 }
{
    if there { w } else { 0 }
}

// READING

// A number that is there or not; 0 where it is not.
fn u16_if(s: &[u8], at: usize, there: bool) -> Result<u16, Refusal>
    requires { at ≤ length s.now }
    ensures { result ≡ field Err (when there 2 0) s.now at Ok }
{
    if there {
        return numbers::read::<u16>(s, at);
    }
    Ok(0)
}

fn u8_if(s: &[u8], at: usize, there: bool) -> Result<u8, Refusal>
    requires { at ≤ length s.now }
    ensures { result ≡ field Err (when there 1 0) s.now at Ok }
{
    if there {
        return numbers::read::<u8>(s, at);
    }
    Ok(0)
}

// The fields from `at` on, of a descriptor that ends where s does: the record, where the URL begins and ends, and the
// position after the fields.
pub fn read(s: &[u8], at: usize) -> Result<(Stream, usize, usize, usize), Refusal>
    ensures { result ≡ fields_of s.now at }
{
    let id = numbers::read::<u16>(s, at)?;
    let flags = numbers::read::<u8>(s, at + 2)?;
    let depends = is_set(flags, DEPENDS);
    let has_url = is_set(flags, URL);
    let has_clock = is_set(flags, CLOCK);
    let first = at + 3;
    let depends_on = u16_if(s, first, depends)?;
    let second = first + width(depends, 2);
    let length = u8_if(s, second, has_url)?;
    let url = second + width(has_url, 1);
    if s.len() - url < length as usize {
        return Err(Refusal::Cut(url));
    }
    let url_end = url + (length as usize);
    let ocr_id = u16_if(s, url_end, has_clock)?;
    let end = url_end + width(has_clock, 2);
    let stream = Stream {
        id,
        flags,
        depends_on,
        ocr_id,
    };
    Ok((stream, url, url_end, end))
}

// WRITING

// Whether a number has its bytes: none of them where it is not there.
fn fits16(n: u16, there: bool) -> bool
    ensures { result ≡ ltb n (256 ^ when there 2 0) }
{
    if there {
        return true;
    }
    n < 1
}

fn fits8(n: usize, there: bool) -> bool
    ensures { result ≡ ltb n (256 ^ when there 1 0) }
{
    if there {
        return n < 256;
    }
    n < 1
}

// Whether what the flags leave out is not there, and the URL's length has one byte.
fn is_sound(stream: Stream, url: &[u8]) -> bool
    ensures { result ≡ sound stream url.now }
{
    if !fits16(stream.depends_on, is_set(stream.flags, DEPENDS)) {
        return false;
    }
    if !fits8(url.len(), is_set(stream.flags, URL)) {
        return false;
    }
    fits16(stream.ocr_id, is_set(stream.flags, CLOCK))
}

// How many bytes the fields have; 13 where they can not be written.
#[tactic(auto, using(crate::proofs::Puts::length_fields), unfolding(numbers::specs::Field::when, numbers::specs::Field::field))]
pub fn size(stream: Stream, url: &[u8]) -> Result<u32, Refusal>
    ensures { result ≡ size_of stream url.now }
{
    if !is_sound(stream, url) {
        return Err(Refusal::Unwritable);
    }
    let depends = width(is_set(stream.flags, DEPENDS), 2);
    let length = width(is_set(stream.flags, URL), 1);
    let clock = width(is_set(stream.flags, CLOCK), 2);
    Ok((3 + depends + length + url.len() + clock) as u32)
}

fn put_fields(out: &mut [u8], at: usize, stream: Stream, url: &[u8]) -> Result<usize, Refusal>
    requires { (at + 3 + wide stream.flags 0x80 2 + wide stream.flags 0x40 1 + length url.now + wide stream.flags 0x20 2 ≤ length out.old) × (stream.depends_on < 256 ^ wide stream.flags 0x80 2)
        × (length url.now < 256 ^ wide stream.flags 0x40 1) × (stream.ocr_id < 256 ^ wide stream.flags 0x20 2) }
    ensures { wrote result out.new ≡ placed (field_bytes stream url.now) (length (field_bytes stream url.now)) at out.old }
{
    let depends = width(is_set(stream.flags, DEPENDS), 2);
    let length = width(is_set(stream.flags, URL), 1);
    let clock = width(is_set(stream.flags, CLOCK), 2);
    put::write::<u16>(out, at, stream.id)?;
    put::write::<u8>(out, at + 2, stream.flags)?;
    put::number(out, at + 3, depends, stream.depends_on as u64)?;
    let second = at + 3 + depends;
    put::number(out, second, length, url.len() as u64)?;
    let third = second + length;
    put::part(out, third, url)?;
    put::number(out, third + url.len(), clock, stream.ocr_id as u64)
}

// The fields at `at`; 13 where they can not be written.
pub fn put(out: &mut [u8], at: usize, stream: Stream, url: &[u8]) -> Result<usize, Refusal>
    ensures { wrote result out.new ≡ fields_in stream url.now at out.old }
{
    let length = size(stream, url)? as usize;
    if 0xffff_ffff_ffff_ffff - length < at {
        return Err(Refusal::Overflow);
    }
    let end = at + length;
    if out.len() < end {
        return Err(Refusal::TooSmall(end));
    }
    put_fields(out, at, stream, url)
}
