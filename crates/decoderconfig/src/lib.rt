#![tactic(auto, unfolding(numbers::specs::Field::when, numbers::specs::Field::field))]
// The content of a DecoderConfigDescriptor (ISO/IEC 14496-1, 7.2.6.6): five numbers, and descriptors, of which the first
// DecoderSpecificInfo (7.2.6.7) is kept.
ghost use Rattle.std.specs.Prelude.{◌≡◌, ◌+◌, ◌^◌, ◌≤◌, ◌<◌, length, OnOk};
ghost use Rattle.put.specs.Put.{wrote, placed};
ghost use Rattle.decoderconfig.specs.DecoderConfig.{numbers_of, is_whole, info_of, config_of, sound, number_bytes, info_bytes, size_of, config_in};

use descriptors::Sought;
use numbers::{Refusal, U24};

// `stream` is a byte of three numbers: the stream's type in 6 bits, whether it goes upwards, and a reserved bit.
#[derive(Clone, Copy)]
pub struct Config {
    pub object_type_indication: u8,
    pub stream: u8,
    pub buffer_size: u32,
    pub max_bitrate: u32,
    pub avg_bitrate: u32,
    pub has_info: bool,
}

pub const INFO: u8 = 5;

// READING

fn numbers_at(s: &[u8], at: usize) -> Result<(u8, u8, u32, u32, u32), Refusal>
    ensures value { result ≡ numbers_of s.now at }
    ensures inside { OnOk result (at + 13 ≤ length s.now) }
{
    let object = numbers::read::<u8>(s, at)?;
    let stream = numbers::read::<u8>(s, at + 1)?;
    let U24(buffer) = numbers::read(s, at + 2)?;
    let max = numbers::read::<u32>(s, at + 5)?;
    let avg = numbers::read::<u32>(s, at + 9)?;
    Ok((object, stream, buffer, max, avg))
}

// Whether an info has the bytes of its audio configuration.
fn is_whole(info: &[u8]) -> bool
    ensures { result ≡ is_whole info.now }
{
    asc::read(info).is_ok()
}

// The first DecoderSpecificInfo from `at` on. The heads behind it are tested too.
fn info_at(s: &[u8], at: usize) -> Result<Option<(usize, usize)>, Refusal>
    ensures { result ≡ info_of s.now at }
{
    let Some(Sought { from, to, .. }) = descriptors::seek(s, at, 5, 5)? else {
        return Ok(None);
    };
    if !is_whole(&s[from..to]) {
        return Err(Refusal::Cut(to));
    }
    descriptors::seek(s, to, 256, 256)?;
    Ok(Some((from, to)))
}

// The content from `at` on, of a descriptor that ends where s does: the record, and where the DecoderSpecificInfo's
// content begins and ends; 0 and 0 where there is none.
pub fn read(s: &[u8], at: usize) -> Result<(Config, usize, usize), Refusal>
    ensures { result ≡ config_of s.now at }
{
    let (object, stream, buffer, max, avg) = numbers_at(s, at)?;
    let info = info_at(s, at + 13)?;
    let config = Config {
        object_type_indication: object,
        stream,
        buffer_size: buffer,
        max_bitrate: max,
        avg_bitrate: avg,
        has_info: info.is_some(),
    };
    let (from, to) = info.unwrap_or((0, 0));
    Ok((config, from, to))
}

// WRITING

// Whether the buffer's size has 3 bytes, and the info can be written or is not there. The other numbers always have theirs.
fn is_sound(config: Config, info: &[u8]) -> bool
    ensures { result ≡ sound config info.now }
{
    if 0xff_ffff < config.buffer_size {
        return false;
    }
    if config.has_info {
        if 0x1000_0000 <= info.len() {
            return false;
        }
        return is_whole(info);
    }
    info.len() == 0
}

// How many bytes the content has; 13 where it can not be written.
pub fn size(config: Config, info: &[u8]) -> Result<u32, Refusal>
    ensures { result ≡ size_of config info.now }
{
    if !is_sound(config, info) {
        return Err(Refusal::Unwritable);
    }
    if config.has_info {
        let length = info.len() as u32;
        let head = descriptor_write::length_size(length) as u32;
        return Ok(14 + head + length);
    }
    Ok(13)
}

fn put_numbers(out: &mut [u8], at: usize, config: Config) -> Result<usize, Refusal>
    requires { (at + 13 ≤ length out.old) × (config.buffer_size < 256 ^ 3) }
    ensures { wrote result out.new ≡ placed (number_bytes config) 13 at out.old }
{
    put::write::<u8>(out, at, config.object_type_indication)?;
    put::write::<u8>(out, at + 1, config.stream)?;
    put::write(out, at + 2, U24(config.buffer_size))?;
    put::write::<u32>(out, at + 5, config.max_bitrate)?;
    put::write::<u32>(out, at + 9, config.avg_bitrate)
}

fn put_info(out: &mut [u8], at: usize, there: bool, info: &[u8]) -> Result<usize, Refusal>
    requires { (at + length (info_bytes there info.now) ≤ length out.old) × (length info.now < 128 ^ 4) }
    ensures { wrote result out.new ≡ placed (info_bytes there info.now) (length (info_bytes there info.now)) at out.old }
{
    if there {
        return descriptors::put(out, at, INFO, info);
    }
    Ok(at)
}

// The content at `at`; 13 where it can not be written.
pub fn put(out: &mut [u8], at: usize, config: Config, info: &[u8]) -> Result<usize, Refusal>
    ensures { wrote result out.new ≡ config_in config info.now at out.old }
{
    let length = size(config, info)? as usize;
    if 0xffff_ffff_ffff_ffff - length < at {
        return Err(Refusal::Overflow);
    }
    let end = at + length;
    if out.len() < end {
        return Err(Refusal::TooSmall(end));
    }
    put_numbers(out, at, config)?;
    put_info(out, at + 13, config.has_info, info)
}
