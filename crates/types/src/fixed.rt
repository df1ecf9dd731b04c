// Fixed point numbers 8.8 and 16.16, and signed 8.8, as the raw integers that stand in a file.
ghost use Rattle.std.specs.Prelude.{◌≡◌};
ghost use Rattle.types.specs.Fixed.{raw_of, whole_of, signed_raw, signed_whole};

pub fn raw8(whole: u8) -> u16
    ensures { result ≡ raw_of 1 whole }
{
    (whole as u16) * 0x100
}

pub fn whole8(raw: u16) -> u8
    ensures { result ≡ whole_of 1 raw }
{
    (raw / 0x100) as u8
}

pub fn raw16(whole: u16) -> u32
    ensures { result ≡ raw_of 2 whole }
{
    (whole as u32) * 0x1_0000
}

pub fn whole16(raw: u32) -> u16
    ensures { result ≡ whole_of 2 raw }
{
    (raw / 0x1_0000) as u16
}

pub fn raw_signed8(whole: i8) -> i16
    ensures { result ≡ signed_raw 1 whole }
{
    (whole as i16) * 0x100
}

// Toward 0: of -0.5 the whole part is 0.
pub fn whole_signed8(raw: i16) -> i8
    ensures { result ≡ signed_whole 1 raw }
{
    (raw / 0x100) as i8
}
