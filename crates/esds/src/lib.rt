#![tactic(auto, unfolding(numbers::specs::Field::when, numbers::specs::Field::field))]
// The descriptor of an elementary stream in a box (ISO/IEC 14496-14, 5.6; ES_Descriptor, 14496-1, 7.2.6.5): its fields, then
// descriptors, of which the DecoderConfig and the SLConfig are kept (A29).
ghost use Rattle.std.specs.Prelude.{◌≡◌};
ghost use Rattle.esds.specs.Esds.{tail_of, after_config, content_of, stream_of, esds_of};

use decoderconfig::Config;
use descriptors::Sought;
use esfields::Stream;
use layout::Field;
use numbers::Refusal;

#[derive(Clone, Copy)]
pub struct Esds {
    pub flags: u32,
    pub stream: Stream,
    pub decoder: Option<Config>,
    pub has_sl: bool,
}

// Where the URL, the DecoderSpecificInfo's content and the SLConfig's content begin and end; 0 and 0 for a descriptor that
// is not there.
#[derive(Clone, Copy)]
pub struct Places {
    pub url: usize,
    pub url_end: usize,
    pub info: usize,
    pub info_end: usize,
    pub sl: usize,
    pub sl_end: usize,
}

// Where the content of the DecoderSpecificInfo and of the SLConfig begins and ends.
#[derive(Clone, Copy)]
pub(crate) struct Parts {
    pub info: usize,
    pub info_end: usize,
    pub sl: usize,
    pub sl_end: usize,
}

pub const KIND: u32 = 0x65736473;

pub const ROW: [Field; 8] = [
    Field::Version(0, 0),
    Field::Flags,
    Field::Nothing,
    Field::Nothing,
    Field::Nothing,
    Field::Nothing,
    Field::Nothing,
    Field::Nothing,
];

// Behind the first DecoderConfig: an SLConfig, with which the rest is skipped. Of others before it the heads are tested.
fn after_config(
    s: &[u8],
    at: usize,
    config: Config,
    info: usize,
    info_end: usize,
) -> Result<(Option<Config>, bool, Parts), Refusal>
    ensures { result ≡ after_config s.now at config info info_end }
{
    match descriptors::seek(s, at, 6, 6)? {
        None => {
            let parts = Parts {
                info,
                info_end,
                sl: 0,
                sl_end: 0,
            };
            Ok((Some(config), false, parts))
        }
        Some(Sought { from, to, .. }) => {
            let parts = Parts {
                info,
                info_end,
                sl: from,
                sl_end: to,
            };
            Ok((Some(config), true, parts))
        }
    }
}

// The descriptors behind the fields: a DecoderConfig, an SLConfig.
fn tail_at(s: &[u8], at: usize) -> Result<(Option<Config>, bool, Parts), Refusal>
    ensures { result ≡ tail_of s.now at }
{
    match descriptors::seek(s, at, 4, 6)? {
        None => {
            let parts = Parts {
                info: 0,
                info_end: 0,
                sl: 0,
                sl_end: 0,
            };
            Ok((None, false, parts))
        }
        Some(Sought { tag, from, to, .. }) => {
            if tag == 6 {
                let parts = Parts {
                    info: 0,
                    info_end: 0,
                    sl: from,
                    sl_end: to,
                };
                return Ok((None, true, parts));
            }
            let (config, info, info_end) = decoderconfig::read(&s[..to], from)?;
            after_config(s, to, config, info, info_end)
        }
    }
}

// What stands in the stream's descriptor, which ends where s does.
fn content_at(s: &[u8], at: usize, flags: u32) -> Result<(Esds, Places), Refusal>
    ensures { result ≡ content_of s.now at flags }
{
    let (stream, url, url_end, end) = esfields::read(s, at)?;
    let (decoder, has_sl, parts) = tail_at(s, end)?;
    let esds = Esds {
        flags,
        stream,
        decoder,
        has_sl,
    };
    let places = Places {
        url,
        url_end,
        info: parts.info,
        info_end: parts.info_end,
        sl: parts.sl,
        sl_end: parts.sl_end,
    };
    Ok((esds, places))
}

// The stream's descriptor at `at`. Another tag is told before a fault of the length, since it stands before it.
fn stream_at(s: &[u8], at: usize, flags: u32) -> Result<(Esds, Places), Refusal>
    ensures { result ≡ stream_of s.now at flags }
{
    let tag = numbers::read::<u8>(s, at)?;
    match descriptor::length_at(s, at + 1) {
        Err(q) => {
            if tag == 3 {
                return Err(q);
            }
            Err(Refusal::Value(at))
        }
        Ok(length) => {
            if s.len() - length.after < length.value as usize {
                return Err(Refusal::Cut(at));
            }
            let to = length.after + (length.value as usize);
            if tag == 3 {
                return content_at(&s[..to], length.after, flags);
            }
            Err(Refusal::Value(at))
        }
    }
}

pub fn read(part: &[u8]) -> Result<(Esds, Places), Refusal>
    ensures { result ≡ esds_of part.now }
{
    let got = short::read::by(part, KIND, ROW)?;
    let v = got.values;
    let place = got.place;
    let end = got.end;
    stream_at(&part[..end], place, v[1] as u32)
}
