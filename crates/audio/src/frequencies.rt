// The sampling frequency by its index, and the index of a frequency.
ghost use Rattle.std.specs.Prelude.{◌≡◌};
ghost use Rattle.audio.specs.Frequencies.{frequency_of, index_of};

use numbers::Refusal;

pub const FREQUENCIES: [u32; 13] = [
    96_000, 88_200, 64_000, 48_000, 44_100, 32_000, 24_000, 22_050, 16_000, 12_000, 11_025, 8_000,
    7_350,
];

pub fn frequency(index: u8) -> Result<u32, Refusal>
    ensures { result ≡ frequency_of index }
{
    if 12 < index {
        return Err(Refusal::Value(0));
    }
    Ok(FREQUENCIES[index as usize])
}

pub fn index_of(frequency: u32) -> Result<u8, Refusal>
    ensures { result ≡ index_of frequency }
{
    let mut i = 0u8;
    while i < 13 {
        if FREQUENCIES[i as usize] == frequency {
            return Ok(i);
        }
        i = i + 1;
    }
    Err(Refusal::Value(0))
}
