// A box type or handler: four letters, or the number in their four bytes.
ghost use Rattle.std.specs.Prelude.{◌≡◌};
ghost use Rattle.numbers.specs.Number.{be, bytes};

pub type Letters = [u8; 4];

pub fn number_of(letters: Letters) -> u32
    ensures { result ≡ be 4 letters 0 }
{
    // Four bytes are always all there.
    let Ok(n) = numbers::read::<u32>(&letters, 0) else {
        return 0;
    };
    n
}

pub fn of_number(n: u32) -> Letters
    ensures { result ≡ bytes 4 n }
{
    [
        (n / 0x100_0000 % 256) as u8,
        (n / 0x1_0000 % 256) as u8,
        (n / 0x100 % 256) as u8,
        (n % 256) as u8,
    ]
}
