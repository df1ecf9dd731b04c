#![tactic(auto, unfolding(numbers::specs::Field::when, numbers::specs::Field::field))]
// What every descriptor begins with: its tag, and its length in 7 bits a byte (ISO/IEC 14496-1, 7.2.6 and 8.3.3).
ghost use Rattle.std.specs.Prelude.{◌≡◌, ◌%◌, ◌<◌};
ghost use Rattle.descriptor.specs.Descriptor.{length_of, head_of};

use numbers::Refusal;

// A length, and the position after its last byte.
#[derive(Clone, Copy)]
pub struct Length {
    pub value: u32,
    pub after: usize,
}

// A tag; the content lies from `from` up to `to`.
#[derive(Clone, Copy)]
pub struct Head {
    pub tag: u8,
    pub from: usize,
    pub to: usize,
}

// A byte's share of the length.
fn low(x: u8) -> u32
    ensures { (result ≡ x % 128) × (result < 128) }
{
    (x % 128) as u32
}

// The length at `at`. Both faults of a length are told at its first byte.
pub fn length_at(s: &[u8], at: usize) -> Result<Length, Refusal>
    ensures { result ≡ length_of s.now at }
{
    let mut value = 0;
    let mut i: usize = 0;
    let mut p = at;
    while i < 4 {
        if s.len() <= p {
            return Err(Refusal::Cut(at));
        }
        let byte = s[p];
        value = value * 128 + low(byte);
        i = i + 1;
        p = p + 1;
        if byte < 128 {
            return Ok(Length { value, after: p });
        }
    }
    Err(Refusal::Value(at))
}

// The tag and the length at `at`, of a descriptor that must end where s does, or before.
#[tactic(auto, unfolding(numbers::specs::Field::when, numbers::specs::Field::field, crate::specs::Descriptor::head_by))]
pub fn head_at(s: &[u8], at: usize) -> Result<Head, Refusal>
    ensures { result ≡ head_of s.now at }
{
    let tag = numbers::read::<u8>(s, at)?;
    let Length { value, after } = length_at(s, at + 1)?;
    if s.len() - after < value as usize {
        return Err(Refusal::Cut(at));
    }
    Ok(Head {
        tag,
        from: after,
        to: after + (value as usize),
    })
}
