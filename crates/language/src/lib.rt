#![tactic(auto, unfolding(numbers::specs::Field::when, numbers::specs::Field::field))]
// The language of a track: three letters in 15 bits (ISO/IEC 14496-12, 8.4.2.3).
ghost use Rattle.std.specs.Prelude.{◌≡◌, Ok, Err};
ghost use Rattle.language.specs.Language.{letters_of, five, code_of};

use numbers::Refusal;

#[derive(Clone, Copy)]
pub struct Letters {
    pub first: u8,
    pub second: u8,
    pub third: u8,
}

// The pad bit is passed over.
pub fn of_code(code: u16) -> Letters
    ensures { result ≡ letters_of code }
{
    Letters {
        first: (code / 1024 % 32) as u8 + 0x60,
        second: (code / 32 % 32) as u8 + 0x60,
        third: (code % 32) as u8 + 0x60,
    }
}

// The 5 bits of a letter.
fn bits(x: u8) -> Result<u8, Refusal>
    ensures { result ≡ five Err x Ok }
{
    if x < 0x60 {
        return Err(Refusal::Unwritable);
    }
    if 0x7f < x {
        return Err(Refusal::Unwritable);
    }
    Ok(x - 0x60)
}

// 13 for a letter that 5 bits do not hold.
pub fn code_of(letters: Letters) -> Result<u16, Refusal>
    ensures { result ≡ code_of letters }
{
    let Ok(first) = bits(letters.first) else {
        return Err(Refusal::Unwritable);
    };
    let Ok(second) = bits(letters.second) else {
        return Err(Refusal::Unwritable);
    };
    let Ok(third) = bits(letters.third) else {
        return Err(Refusal::Unwritable);
    };
    Ok(first as u16 * 1024 + second as u16 * 32 + third as u16)
}
