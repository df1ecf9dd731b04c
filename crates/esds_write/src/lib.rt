#![tactic(auto, unfolding(numbers::specs::Field::when, numbers::specs::Field::field))]
// An elementary stream's descriptor in a box (`esds`), written: its fields, then the DecoderConfig and the SLConfig, where it
// has them, each length in its shortest form.
ghost use Rattle.std.specs.Prelude.{◌≡◌, true, ◌+◌, ◌≤◌, length};
ghost use Rattle.descriptors.specs.Descriptors.{descriptor_bytes};
ghost use Rattle.put.specs.Put.{wrote, placed};
ghost use Rattle.esds.specs.Esds.{decoder_bytes, sl_bytes, content_bytes, decoder_sound, sl_sound, sound, decoder_size, sl_size, esds_in};

use boxes::{full, header};
use esds::Esds;
use numbers::Refusal;

// How many bytes the DecoderConfig has, with its head; 13 where it can not be written, or where an info has none around it.
fn decoder_size(decoder: Option<decoderconfig::Config>, info: &[u8]) -> Result<u32, Refusal>
    ensures { result ≡ decoder_size decoder info.now }
{
    let Some(config) = decoder else {
        if info.len() == 0 {
            return Ok(0);
        }
        return Err(Refusal::Unwritable);
    };
    let n = decoderconfig::size(config, info)?;
    if 0x1000_0000 <= n {
        return Err(Refusal::Unwritable);
    }
    Ok(descriptor_write::length_size(n) as u32 + 1 + n)
}

// The same of the SLConfig.
fn sl_size(there: bool, sl: &[u8]) -> Result<u32, Refusal>
    ensures { result ≡ sl_size there sl.now }
{
    if there {
        if 0x1000_0000 <= sl.len() {
            return Err(Refusal::Unwritable);
        }
        let length = sl.len() as u32;
        return Ok(descriptor_write::length_size(length) as u32 + 1 + length);
    }
    if sl.len() == 0 {
        return Ok(0);
    }
    Err(Refusal::Unwritable)
}

fn put_decoder(
    out: &mut [u8],
    at: usize,
    decoder: Option<decoderconfig::Config>,
    info: &[u8],
) -> Result<usize, Refusal>
    requires { (at + length (decoder_bytes decoder info.now) ≤ length out.old) × (decoder_sound decoder info.now ≡ true) }
    ensures { wrote result out.new ≡ placed (decoder_bytes decoder info.now) (length (decoder_bytes decoder info.now)) at out.old }
{
    let Some(config) = decoder else {
        return Ok(at);
    };
    let n = decoderconfig::size(config, info)?;
    let content = descriptor_write::put_head(out, at, 4, n)?;
    decoderconfig::put(out, content, config, info)
}

fn put_sl(out: &mut [u8], at: usize, there: bool, sl: &[u8]) -> Result<usize, Refusal>
    requires { (at + length (sl_bytes there sl.now) ≤ length out.old) × (sl_sound there sl.now ≡ true) }
    ensures { wrote result out.new ≡ placed (sl_bytes there sl.now) (length (sl_bytes there sl.now)) at out.old }
{
    if there {
        return descriptors::put(out, at, 6, sl);
    }
    Ok(at)
}

// The stream's descriptor behind version and flags, with n bytes behind its head.
fn put_stream(
    out: &mut [u8],
    n: u32,
    esds: Esds,
    url: &[u8],
    info: &[u8],
    sl: &[u8],
) -> Result<usize, Refusal>
    requires { (n ≡ length (content_bytes esds url.now info.now sl.now)) × (sound esds url.now info.now sl.now ≡ true)
        × (12 + length (descriptor_bytes 3 (content_bytes esds url.now info.now sl.now)) ≤ length out.old) }
    ensures { wrote result out.new ≡ placed (descriptor_bytes 3 (content_bytes esds url.now info.now sl.now)) (length (descriptor_bytes 3 (content_bytes esds url.now info.now sl.now))) 12 out.old }
{
    let fields = descriptor_write::put_head(out, 12, 3, n)?;
    let decoder = esfields::put(out, fields, esds.stream, url)?;
    let last = put_decoder(out, decoder, esds.decoder, info)?;
    put_sl(out, last, esds.has_sl, sl)
}

// Of what is not there no bytes are given.
pub fn write(
    esds: Esds,
    url: &[u8],
    info: &[u8],
    sl: &[u8],
    out: &mut [u8],
) -> Result<usize, Refusal>
    ensures { wrote result out.new ≡ esds_in esds url.now info.now sl.now out.old }
{
    let first = esfields::size(esds.stream, url)? as usize;
    let second = decoder_size(esds.decoder, info)? as usize;
    let third = sl_size(esds.has_sl, sl)? as usize;
    let n = first + second + third;
    if 0x1000_0000 <= n {
        return Err(Refusal::Unwritable);
    }
    if 0xff_ffff < esds.flags {
        return Err(Refusal::Unwritable);
    }
    let length = n as u32;
    let total = 13 + descriptor_write::length_size(length) + n;
    if out.len() < total {
        return Err(Refusal::TooSmall(total));
    }
    header::write(out, 0, esds::KIND, total)?;
    full::write(out, 8, 0, esds.flags)?;
    put_stream(out, length, esds, url, info, sl)
}
