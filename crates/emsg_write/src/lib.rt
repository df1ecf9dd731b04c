#![tactic(auto, unfolding(numbers::specs::Field::when, numbers::specs::Field::field))]
// The writer of the event message box (`emsg`).
ghost use Rattle.std.specs.Prelude.{◌≡◌, ◌+◌, ◌-◌, ◌^◌, ◌≤◌, ◌<◌, min, length};
ghost use Rattle.std.proofs.lemmas.List.Edits.{sets};
ghost use Rattle.put.specs.Put.{wrote};
ghost use Rattle.strings.specs.Text.{text_at};
ghost use Rattle.emsg.specs.Emsg.{wide, whole, sound, string_bytes, number_bytes, laid, emsg_in};

use boxes::{full, header};
use emsg::{Emsg, KIND};
use numbers::Refusal;

fn no_zero(text: &[u8]) -> bool
    ensures { result ≡ whole (text_at text.now 0) }
{
    match strings::text_end(text, 0) {
        None => true,
        Some(_) => false,
    }
}

// The largest time.
fn most_time(version: u8) -> u64
    ensures { result ≡ 256 ^ wide version - 1 }
{
    if version == 0 {
        0xffff_ffff
    } else {
        0xffff_ffff_ffff_ffff
    }
}

// Whether the time has its bytes, and neither string holds a 0. The other numbers always have theirs.
fn is_sound(emsg: Emsg, scheme: &[u8], value: &[u8]) -> bool
    ensures { result ≡ sound emsg scheme.now value.now }
{
    if most_time(emsg.version) < emsg.presentation_time {
        return false;
    }
    if !no_zero(scheme) {
        return false;
    }
    no_zero(value)
}

// A sum, or 2^32 where it is more.
fn capped(a: usize, b: usize) -> usize
    requires { a ≤ 2 ^ 32 }
    ensures { result ≡ min (a + b) (2 ^ 32) }
{
    if 0x1_0000_0000 - a < b {
        return 0x1_0000_0000;
    }
    a + b
}

// The strings from `at` on, and the position after them.
fn put_strings(out: &mut [u8], at: usize, scheme: &[u8], value: &[u8]) -> usize
    requires { at + length (string_bytes scheme.now value.now) ≤ length out.old }
    ensures { (out.new ≡ sets out.old at (string_bytes scheme.now value.now))
        × (result ≡ at + length (string_bytes scheme.now value.now)) }
{
    let _ = put::part(out, at, scheme);
    let first = at + scheme.len();
    let _ = put::write::<u8>(out, first, 0);
    let _ = put::part(out, first + 1, value);
    let second = first + 1 + value.len();
    let _ = put::write::<u8>(out, second, 0);
    second + 1
}

// The numbers from `at` on, the time in w bytes, and the position after them.
fn put_numbers(out: &mut [u8], at: usize, w: usize, emsg: Emsg) -> usize
    requires { (at + 12 + w ≤ length out.old) × (w ≤ 8) × (emsg.presentation_time < 256 ^ w) }
    ensures { (out.new ≡ sets out.old at (number_bytes w emsg)) × (result ≡ at + 12 + w) }
{
    let _ = put::write::<u32>(out, at, emsg.timescale);
    let _ = put::number(out, at + 4, w, emsg.presentation_time);
    let next = at + 4 + w;
    let _ = put::write::<u32>(out, next, emsg.event_duration);
    let _ = put::write::<u32>(out, next + 4, emsg.id);
    next + 8
}

// What lies behind the flags.
fn put_content(out: &mut [u8], emsg: Emsg, scheme: &[u8], value: &[u8], message: &[u8])
    requires { (12 + length (laid emsg scheme.now value.now message.now) ≤ length out.old) × (emsg.presentation_time < 256 ^ wide emsg.version) }
    ensures { out.new ≡ sets out.old 12 (laid emsg scheme.now value.now message.now) }
{
    if emsg.version == 0 {
        let strings = put_strings(out, 12, scheme, value);
        let numbers = put_numbers(out, strings, 4, emsg);
        let _ = put::part(out, numbers, message);
        return;
    }
    let numbers = put_numbers(out, 12, 8, emsg);
    let strings = put_strings(out, numbers, scheme, value);
    let _ = put::part(out, strings, message);
}

// How many bytes header, version, flags, numbers and both 0 have.
fn fixed(version: u8) -> usize
    ensures { result ≡ 26 + wide version }
{
    if version == 0 { 30 } else { 34 }
}

// The strings are lent without their 0.
pub fn write(
    emsg: Emsg,
    scheme: &[u8],
    value: &[u8],
    message: &[u8],
    out: &mut [u8],
) -> Result<usize, Refusal>
    ensures { wrote result out.new ≡ emsg_in emsg scheme.now value.now message.now out.old }
{
    if !is_sound(emsg, scheme, value) {
        return Err(Refusal::Unwritable);
    }
    if 1 < emsg.version {
        return Err(Refusal::Unwritable);
    }
    if 0xff_ffff < emsg.flags {
        return Err(Refusal::Unwritable);
    }
    let texts = capped(capped(fixed(emsg.version), scheme.len()), value.len());
    let total = capped(texts, message.len());
    if 0xffff_ffff < total {
        return Err(Refusal::Unwritable);
    }
    if out.len() < total {
        return Err(Refusal::TooSmall(total));
    }
    let _ = header::write(out, 0, KIND, total);
    let _ = full::write(out, 8, emsg.version, emsg.flags);
    put_content(out, emsg, scheme, value, message);
    Ok(total)
}
