// What a full box has after its header: a version and flags.
ghost use Rattle.std.specs.Prelude.{◌≡◌};
ghost use Rattle.put.specs.Put.{wrote};
ghost use Rattle.boxes.specs.Full.{full_of, full_in};

use numbers::{Refusal, U24};

#[derive(Clone, Copy)]
pub struct Full {
    pub version: u8,
    pub flags: u32,
}

pub fn read(s: &[u8], at: usize) -> Result<Full, Refusal>
    ensures { result ≡ full_of s.now at }
{
    let version = numbers::read::<u8>(s, at)?;
    let U24(flags) = numbers::read(s, at + 1)?;
    Ok(Full { version, flags })
}

// 13 where the flags have more than 24 bits.
pub fn write(out: &mut [u8], at: usize, version: u8, flags: u32) -> Result<usize, Refusal>
    ensures { wrote result out.new ≡ full_in version flags at out.old }
{
    if flags < 0x100_0000 {
        return put::write::<u32>(out, at, (version as u32) * 0x100_0000 + flags);
    }
    Err(Refusal::Unwritable)
}
