#![tactic(auto, unfolding(numbers::specs::Field::when, numbers::specs::Field::field))]
// Where the media data of a track lie (ISO/IEC 14496-12, 8.7.2): flag 1 says in the same file; the location is the
// rest of the box.
ghost use Rattle.std.specs.Prelude.{◌≡◌};
ghost use Rattle.put.specs.Put.{wrote};
ghost use Rattle.url_box.specs.Url.{url_of, location_of, url_in};

use layout::Field;
use numbers::Refusal;

#[derive(Clone, Copy)]
pub struct Url {
    pub version: u8,
    pub flags: u32,
}

pub const KIND: u32 = 0x75726c20;

pub const ROW: [Field; 8] = [
    Field::Version(0, 0),
    Field::Flags,
    Field::Nothing,
    Field::Nothing,
    Field::Nothing,
    Field::Nothing,
    Field::Nothing,
    Field::Nothing,
];

pub fn read(part: &[u8]) -> Result<Url, Refusal>
    ensures { result ≡ url_of part.now }
{
    let got = short::read::by(part, KIND, ROW)?;
    let v = got.values;
    Ok(Url {
        version: v[0] as u8,
        flags: v[1] as u32,
    })
}

// The location, as the part of the box where it lies; no bytes where the box is refused.
pub fn location(part: &[u8]) -> &[u8]
    ensures { result.now ≡ location_of part.now }
{
    short::read::rest(part, KIND, ROW)
}

pub fn write(url: Url, location: &[u8], out: &mut [u8]) -> Result<usize, Refusal>
    ensures { wrote result out.new ≡ url_in url location.now out.old }
{
    let v = [url.version as u64, url.flags as u64, 0, 0, 0, 0, 0, 0];
    short::write::by(out, KIND, ROW, v, location)
}
