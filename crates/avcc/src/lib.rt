#![tactic(auto, unfolding(numbers::specs::Field::when, numbers::specs::Field::field))]
// The configuration of an AVC decoder (ISO/IEC 14496-15, 5.3.3.1): six bytes, the sequence parameter sets, a byte with
// the number of the picture parameter sets, those, and the extension of the high profiles, which is the rest of the box.
ghost use Rattle.std.specs.Prelude.{◌≡◌, ◌+◌, ◌≤◌, min, ◌^◌, length};
ghost use Rattle.std.proofs.lemmas.List.Edits.{sets};
ghost use Rattle.put.specs.Put.{wrote};
ghost use Rattle.avcc.specs.Avcc.{head_of, content_of, avcc_of, sound, laid, avcc_in};

use boxes::header;
use layout::Field;
use numbers::Refusal;

// `length_size` is the size of a sample's lengths less one; `sps` and `pps` are how many sets there are.
#[derive(Clone, Copy)]
pub struct Avcc {
    pub profile: u8,
    pub compatibility: u8,
    pub level: u8,
    pub length_size: u8,
    pub sps: u8,
    pub pps: u8,
}

// Where each list begins and ends, and where the box ends. The extension begins where the second list ends.
#[derive(Clone, Copy)]
pub struct Places {
    pub sps: usize,
    pub sps_end: usize,
    pub pps: usize,
    pub pps_end: usize,
    pub end: usize,
}

pub const KIND: u32 = 0x61766343;

// No field: what lies behind the header is read here.
pub const ROW: [Field; 24] = [Field::Nothing; 24];

// READING

// The first six bytes behind the header. The bits above the size of lengths and above the number are reserved.
fn head_at(b: &[u8], at: usize) -> Result<(u8, u8, u8, u8, u8), Refusal>
    ensures { result ≡ head_of b.now at }
{
    let version = numbers::read::<u8>(b, at)?;
    if version != 1 {
        return Err(Refusal::Value(at));
    }
    let profile = numbers::read::<u8>(b, at + 1)?;
    let compatibility = numbers::read::<u8>(b, at + 2)?;
    let level = numbers::read::<u8>(b, at + 3)?;
    let size = numbers::read::<u8>(b, at + 4)?;
    let count = numbers::read::<u8>(b, at + 5)?;
    let length_size = size % 4;
    let sps = count % 32;
    Ok((profile, compatibility, level, length_size, sps))
}

// What lies behind the header, up to the box's end.
fn content(b: &[u8], at: usize) -> Result<(Avcc, Places), Refusal>
    ensures { result ≡ content_of b.now at }
{
    let (profile, compatibility, level, length_size, sps) = head_at(b, at)?;
    let first = at + 6;
    let sps_end = sets::end_of(b, first, sps as usize)?;
    let pps = numbers::read::<u8>(b, sps_end)?;
    let second = sps_end + 1;
    let pps_end = sets::end_of(b, second, pps as usize)?;
    let avcc = Avcc {
        profile,
        compatibility,
        level,
        length_size,
        sps,
        pps,
    };
    let places = Places {
        sps: first,
        sps_end,
        pps: second,
        pps_end,
        end: b.len(),
    };
    Ok((avcc, places))
}

pub fn read(part: &[u8]) -> Result<(Avcc, Places), Refusal>
    ensures { result ≡ avcc_of part.now }
{
    let got = layout::read::by(part, KIND, ROW)?;
    let place = got.place;
    let end = got.end;
    content(&part[..end], place)
}

// WRITING

// Whether both numbers have their bits, and each list is as many sets as its count says.
fn is_sound(avcc: Avcc, sps_list: &[u8], pps_list: &[u8]) -> bool
    ensures { result ≡ sound avcc sps_list.now pps_list.now }
{
    if 3 < avcc.length_size {
        return false;
    }
    if 31 < avcc.sps {
        return false;
    }
    if !sets::filled_by(sps_list, avcc.sps as usize) {
        return false;
    }
    sets::filled_by(pps_list, avcc.pps as usize)
}

// A sum, or 2^32 where it is more.
fn capped(a: usize, b: usize) -> usize
    requires { a ≤ 2 ^ 32 }
    ensures { result ≡ min (a + b) (2 ^ 32) }
{
    if 0x1_0000_0000 - a < b {
        return 0x1_0000_0000;
    }
    a + b
}

// What lies behind the header. The reserved bits are ones.
fn put_content(out: &mut [u8], avcc: Avcc, sps_list: &[u8], pps_list: &[u8], extension: &[u8])
    requires { (8 + length (laid avcc sps_list.now pps_list.now extension.now) ≤ length out.old) × (avcc.length_size ≤ 3) × (avcc.sps ≤ 31) }
    ensures { out.new ≡ sets out.old 8 (laid avcc sps_list.now pps_list.now extension.now) }
{
    let size = 252 + avcc.length_size;
    let count = 224 + avcc.sps;
    let head = [1, avcc.profile, avcc.compatibility, avcc.level, size, count];
    let _ = put::part(out, 8, &head[..6]);
    let _ = put::part(out, 14, sps_list);
    let first = 14 + sps_list.len();
    let _ = put::write::<u8>(out, first, avcc.pps);
    let second = first + 1;
    let _ = put::part(out, second, pps_list);
    let last = second + pps_list.len();
    let _ = put::part(out, last, extension);
}

// The lists are lent with the lengths of their sets; `sets::put_set` makes them.
pub fn write(
    avcc: Avcc,
    sps_list: &[u8],
    pps_list: &[u8],
    extension: &[u8],
    out: &mut [u8],
) -> Result<usize, Refusal>
    ensures { wrote result out.new ≡ avcc_in avcc sps_list.now pps_list.now extension.now out.old }
{
    if !is_sound(avcc, sps_list, pps_list) {
        return Err(Refusal::Unwritable);
    }
    let lists = capped(capped(15, sps_list.len()), pps_list.len());
    let total = capped(lists, extension.len());
    if 0xffff_ffff < total {
        return Err(Refusal::Unwritable);
    }
    if out.len() < total {
        return Err(Refusal::TooSmall(total));
    }
    let _ = header::write(out, 0, KIND, total);
    put_content(out, avcc, sps_list, pps_list, extension);
    Ok(total)
}
