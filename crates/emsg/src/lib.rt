#![tactic(auto, unfolding(numbers::specs::Field::when, numbers::specs::Field::field))]
// The event message box (ISO/IEC 23009-1, 5.10.3.3): two strings that end with a 0, four numbers and a message, which
// is the rest of the box (A27). Version 0 has the strings first and a time of 4 bytes, version 1 the numbers first and
// a time of 8.
ghost use Rattle.std.specs.Prelude.{◌≡◌, ◌≤◌};
ghost use Rattle.emsg.specs.Emsg.{strings_of, numbers_of, strings_first, numbers_first, emsg_of};

use layout::Field;
use numbers::Refusal;

// The time is from the segment's start in version 0, and from the presentation's in version 1.
#[derive(Clone, Copy)]
pub struct Emsg {
    pub version: u8,
    pub flags: u32,
    pub timescale: u32,
    pub presentation_time: u64,
    pub event_duration: u32,
    pub id: u32,
}

// Where each string begins, and where its 0 stands; where the message begins, and where the box ends.
#[derive(Clone, Copy)]
pub struct Places {
    pub scheme: usize,
    pub scheme_end: usize,
    pub value: usize,
    pub value_end: usize,
    pub message: usize,
    pub end: usize,
}

pub const KIND: u32 = 0x656d7367;

pub const ROW: [Field; 8] = [
    Field::Version(0, 1),
    Field::Flags,
    Field::Nothing,
    Field::Nothing,
    Field::Nothing,
    Field::Nothing,
    Field::Nothing,
    Field::Nothing,
];

fn strings_at(b: &[u8], at: usize) -> Result<(usize, usize), Refusal>
    ensures { result ≡ strings_of b.now at }
{
    let scheme_end = strings::text_end(b, at).ok_or(Refusal::Cut(at))?;
    let value = scheme_end + 1;
    let value_end = strings::text_end(b, value).ok_or(Refusal::Cut(value))?;
    Ok((scheme_end, value_end))
}

// The time has w bytes.
fn numbers_at(b: &[u8], at: usize, w: usize) -> Result<(u32, u64, u32, u32), Refusal>
    requires { w ≤ 8 }
    ensures { result ≡ numbers_of w b.now at }
{
    let timescale = numbers::read::<u32>(b, at)?;
    let time = numbers::number_at(b, at + 4, w)?;
    let next = at + 4 + w;
    let duration = numbers::read::<u32>(b, next)?;
    let id = numbers::read::<u32>(b, next + 4)?;
    Ok((timescale, time, duration, id))
}

// Version 0, from behind the flags on.
fn strings_first(b: &[u8], at: usize, flags: u32) -> Result<(Emsg, Places), Refusal>
    ensures { result ≡ strings_first b.now at flags }
{
    let (scheme_end, value_end) = strings_at(b, at)?;
    let from = value_end + 1;
    let (timescale, time, duration, id) = numbers_at(b, from, 4)?;
    let emsg = Emsg {
        version: 0,
        flags,
        timescale,
        presentation_time: time,
        event_duration: duration,
        id,
    };
    let places = Places {
        scheme: at,
        scheme_end,
        value: scheme_end + 1,
        value_end,
        message: from + 16,
        end: b.len(),
    };
    Ok((emsg, places))
}

// Version 1, from behind the flags on.
fn numbers_first(b: &[u8], at: usize, flags: u32) -> Result<(Emsg, Places), Refusal>
    ensures { result ≡ numbers_first b.now at flags }
{
    let (timescale, time, duration, id) = numbers_at(b, at, 8)?;
    let from = at + 20;
    let (scheme_end, value_end) = strings_at(b, from)?;
    let emsg = Emsg {
        version: 1,
        flags,
        timescale,
        presentation_time: time,
        event_duration: duration,
        id,
    };
    let places = Places {
        scheme: from,
        scheme_end,
        value: scheme_end + 1,
        value_end,
        message: value_end + 1,
        end: b.len(),
    };
    Ok((emsg, places))
}

pub fn read(part: &[u8]) -> Result<(Emsg, Places), Refusal>
    ensures { result ≡ emsg_of part.now }
{
    let got = short::read::by(part, KIND, ROW)?;
    let v = got.values;
    let place = got.place;
    let end = got.end;
    let flags = v[1] as u32;
    if v[0] == 0 {
        return strings_first(&part[..end], place, flags);
    }
    numbers_first(&part[..end], place, flags)
}
