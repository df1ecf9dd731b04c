// A box's header: size and type, and a 64-bit size where the size is 1.
ghost use Rattle.std.specs.Prelude.{◌≡◌, ◌+◌, ◌≤◌, length, Ok};
ghost use Rattle.put.specs.Put.{wrote, placed};
ghost use Rattle.boxes.specs.Header.{within, typed_of, large_of, header_of, plain_bytes, large_bytes, header_in};

use numbers::Refusal;

#[derive(Clone, Copy)]
pub struct Header {
    // the type, its four letters as a number
    pub kind: u32,
    // of the whole box
    pub size: usize,
    // of the header: 8, or 16 with a 64-bit size
    pub length: usize,
}

// A size that neither passes the parent nor is smaller than the header. At one position Cut wins over Size.
fn check_size(s: &[u8], at: usize, size: usize, least: usize) -> Result<(), Refusal>
    ensures { result ≡ within s.now at size least (Ok tt) }
{
    if s.len().saturating_sub(at) < size {
        return Err(Refusal::Cut(at));
    }
    if size < least {
        return Err(Refusal::Size(at));
    }
    Ok(())
}

// A header of 8 bytes, whose size is known.
fn typed(s: &[u8], at: usize, size: usize) -> Result<Header, Refusal>
    requires { at + 4 ≤ length s.now }
    ensures { result ≡ typed_of s.now at size }
{
    let kind = numbers::read::<u32>(s, at + 4)?;
    Ok(Header {
        kind,
        size,
        length: 8,
    })
}

// A header of 16 bytes, with the size in 64 bits.
fn large(s: &[u8], at: usize) -> Result<Header, Refusal>
    requires { at + 4 ≤ length s.now }
    ensures { result ≡ large_of s.now at }
{
    let kind = numbers::read::<u32>(s, at + 4)?;
    let n = numbers::read::<u64>(s, at + 8)?;
    let size = n as usize;
    check_size(s, at, size, 16)?;
    Ok(Header {
        kind,
        size,
        length: 16,
    })
}

// The header at `at` of a box that must end where s does, or before. Only a box at the top may have size 0.
pub fn read(s: &[u8], at: usize, top: bool) -> Result<Header, Refusal>
    ensures { result ≡ header_of s.now at top }
{
    let n = numbers::read::<u32>(s, at)?;
    if n == 1 {
        return large(s, at);
    }
    if n == 0 {
        if top {
            return typed(s, at, s.len().saturating_sub(at));
        }
        return Err(Refusal::Size(at));
    }
    let size = n as usize;
    check_size(s, at, size, 8)?;
    typed(s, at, size)
}

// 8 bytes: the size and the type.
fn write_plain(out: &mut [u8], at: usize, kind: u32, size: u32) -> Result<usize, Refusal>
    ensures { wrote result out.new ≡ placed (plain_bytes kind size) 8 at out.old }
{
    put::write::<u64>(out, at, (size as u64) * 0x1_0000_0000 + (kind as u64))
}

// 16 bytes: 1, the type and the size. There is room for all of them before the first is written.
fn write_large(out: &mut [u8], at: usize, kind: u32, size: usize) -> Result<usize, Refusal>
    ensures { wrote result out.new ≡ placed (large_bytes kind size) 16 at out.old }
{
    if 0xffff_ffff_ffff_ffff - 16 < at {
        return Err(Refusal::Overflow);
    }
    let end = at + 16;
    if out.len() < end {
        return Err(Refusal::TooSmall(end));
    }
    put::write::<u64>(out, at, 0x1_0000_0000 + (kind as u64))?;
    put::write::<u64>(out, at + 8, size as u64)
}

// The header of a box of this type and size, at `at`.
pub fn write(out: &mut [u8], at: usize, kind: u32, size: usize) -> Result<usize, Refusal>
    ensures { wrote result out.new ≡ header_in kind size at out.old }
{
    if size < 8 {
        return Err(Refusal::Unwritable);
    }
    if size < 0x1_0000_0000 {
        return write_plain(out, at, kind, size as u32);
    }
    write_large(out, at, kind, size)
}
