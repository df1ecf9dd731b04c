#![tactic(auto, unfolding(numbers::specs::Field::when, numbers::specs::Field::field))]
// Numbers that lie in a file, wherever a table says: a number that the file does not hold whole is 0.
ghost use Rattle.std.specs.Prelude.{◌≡◌, ◌+◌};
ghost use Rattle.numbers.specs.Field.{or_zero};
ghost use Rattle.signed.specs.Signed.{signed};

// The number in 4 bytes, `past` bytes behind `at`, or 0 where they are not all in the file.
pub fn four(file: &[u8], at: usize, past: usize) -> u32
    ensures { result ≡ or_zero 4 file.now (at + past) }
{
    if file.len() < at {
        return 0;
    }
    numbers::read::<u32>(&file[at..], past).unwrap_or(0)
}

// The number in 8 bytes, `past` bytes behind `at`, or 0 where they are not all in the file.
pub fn eight(file: &[u8], at: usize, past: usize) -> u64
    ensures { result ≡ or_zero 8 file.now (at + past) }
{
    if file.len() < at {
        return 0;
    }
    numbers::read::<u64>(&file[at..], past).unwrap_or(0)
}

// The signed number that 32 bits stand for.
pub fn as_signed(x: u32) -> i64
    ensures { result ≡ signed 4 x }
{
    if x < 2147483648 {
        return x as i64;
    }
    (x as i64) - 4294967296
}
