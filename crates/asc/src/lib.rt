#![tactic(auto, unfolding(numbers::specs::Field::when, crate::specs::Config::bit_field))]
// The first fields of an AudioSpecificConfig (ISO/IEC 14496-3, 1.6.2.1), which are no whole bytes.
ghost use Rattle.std.specs.Prelude.{◌≡◌, ◌+◌, ◌*◌, ◌^◌, ◌≤◌, ◌<◌, length, IfOk, Ok, Err};
ghost use Rattle.put.specs.Put.{wrote};
ghost use Rattle.asc.specs.Config.{bit_of, bits_of, bit_field, channels_of, rate_of, config_of, has_form, config_in};

use numbers::Refusal;

#[derive(Clone, Copy)]
pub struct Config {
    pub object_type: u8,
    pub frequency_index: u8,
    // where the index is 15, else 0
    pub frequency: u32,
    pub channels: u8,
}

// 2 to the power of w.
const POWERS: [u8; 8] = [1, 2, 4, 8, 16, 32, 64, 128];

fn power(w: usize) -> u8
    requires { w ≤ 7 }
    ensures { result ≡ 2 ^ w }
{
    POWERS[w]
}

// Bit i of the bytes.
fn bit(s: &[u8], i: usize) -> u32
    requires { i < 8 * length s.now }
    ensures { (result ≡ bit_of s.now i) × (result < 2) }
{
    (s[i / 8] / power(7 - i % 8) % 2) as u32
}

// The number in n bits from bit i on.
fn bits(s: &[u8], i: usize, n: usize) -> u32
    requires { (i + n ≤ 8 * length s.now) × (i ≤ 64) × (n ≤ 24) }
    ensures { (result ≡ bits_of n s.now i) × (result < 2 ^ n) }
{
    let mut value = 0;
    let mut k: usize = 0;
    while k < n {
        value = value * 2 + bit(s, i + k);
        k = k + 1;
    }
    value
}

// The same, where the bytes do not end before.
fn field(s: &[u8], i: usize, n: usize) -> Result<u32, Refusal>
    requires { (i ≤ 64) × (n ≤ 24) }
    ensures value { result ≡ bit_field Err n s.now i Ok }
    ensures below { IfOk result (λ v. v < 2 ^ n) }
{
    if s.len() < (i + n + 7) / 8 {
        return Err(Refusal::Cut(s.len()));
    }
    Ok(bits(s, i, n))
}

// The channels, from bit i on.
fn channels(s: &[u8], i: usize, kind: u8, index: u8, frequency: u32) -> Result<Config, Refusal>
    requires { i ≤ 64 }
    ensures { result ≡ channels_of s.now i kind index frequency }
{
    let n = field(s, i, 4)?;
    Ok(Config {
        object_type: kind,
        frequency_index: index,
        frequency,
        channels: n as u8,
    })
}

// The frequency, from bit i on, and what follows.
fn rate(s: &[u8], i: usize, kind: u8) -> Result<Config, Refusal>
    requires { i ≤ 32 }
    ensures { result ≡ rate_of s.now i kind }
{
    let index = field(s, i, 4)?;
    if index == 15 {
        let frequency = field(s, i + 4, 24)?;
        return channels(s, i + 28, kind, 15, frequency);
    }
    channels(s, i + 4, kind, index as u8, 0)
}

// The fields at the start of the bytes. Only whether they are there is tested.
pub fn read(info: &[u8]) -> Result<Config, Refusal>
    ensures { result ≡ config_of info.now }
{
    let short = field(info, 0, 5)?;
    if short == 31 {
        let more = field(info, 5, 6)?;
        return rate(info, 11, 32 + (more as u8));
    }
    rate(info, 5, short as u8)
}

// Whether each field holds its value.
fn has_form(kind: u8, index: u8, frequency: u32, channels: u8) -> bool
    ensures { result ≡ has_form kind index frequency channels }
{
    if kind == 31 {
        return false;
    }
    if 95 < kind {
        return false;
    }
    if 15 < index {
        return false;
    }
    if 15 < channels {
        return false;
    }
    if index == 15 {
        return frequency < 0x100_0000;
    }
    frequency == 0
}

// The fields in as few bytes as hold them, the bits behind them 0; 13 where a field does not hold its value.
pub fn write(config: Config, out: &mut [u8]) -> Result<usize, Refusal>
    ensures { wrote result out.new ≡ config_in config out.old }
{
    if !has_form(
        config.object_type,
        config.frequency_index,
        config.frequency,
        config.channels,
    ) {
        return Err(Refusal::Unwritable);
    }
    let kind = config.object_type as u64;
    let index = config.frequency_index as u64;
    let frequency = config.frequency as u64;
    let channels = config.channels as u64;
    if kind < 32 {
        if index == 15 {
            return put::number(
                out,
                0,
                5,
                ((kind * 16 + 15) * 0x100_0000 + frequency) * 128 + channels * 8,
            );
        }
        return put::number(out, 0, 2, (kind * 16 + index) * 128 + channels * 8);
    }
    let escaped = 31 * 64 + (kind - 32);
    if index == 15 {
        return put::number(
            out,
            0,
            6,
            ((escaped * 16 + 15) * 0x100_0000 + frequency) * 512 + channels * 32,
        );
    }
    put::number(out, 0, 3, (escaped * 16 + index) * 512 + channels * 32)
}
