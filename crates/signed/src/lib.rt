#![tactic(auto, unfolding(numbers::specs::Field::when, numbers::specs::Field::field))]
// Signed numbers: two's complement of 2, 4 and 8 bytes.
ghost use Rattle.std.specs.Prelude.{◌≡◌, ℕ, ℤ, Ok, Err};
ghost use Rattle.numbers.specs.Field.{field};
ghost use Rattle.signed.specs.Signed.{signed};

use numbers::Refusal;

/// An integer of a fixed count of bytes.
pub trait Signed: Copy {
    ghost WIDTH: { ℕ };

    ghost of_integer: { ℤ → Self };

    /// The integer at `at`.
    fn read(s: &[u8], at: usize) -> Result<Self, Refusal>
        ensures { result ≡ field Err WIDTH s.now at (λ n. Ok (of_integer (signed WIDTH n))) };
}

impl Signed for i16 {
    ghost WIDTH = { 2 };

    ghost of_integer = { λ z. z };

    #[tactic(auto, using(crate::proofs::Signs::cast16), unfolding(numbers::specs::Field::when, numbers::specs::Field::field))]
    fn read(s: &[u8], at: usize) -> Result<i16, Refusal> {
        Ok(numbers::read::<u16>(s, at)?.cast_signed())
    }
}

impl Signed for i32 {
    ghost WIDTH = { 4 };

    ghost of_integer = { λ z. z };

    #[tactic(auto, using(crate::proofs::Signs::cast32), unfolding(numbers::specs::Field::when, numbers::specs::Field::field))]
    fn read(s: &[u8], at: usize) -> Result<i32, Refusal> {
        Ok(numbers::read::<u32>(s, at)?.cast_signed())
    }
}

impl Signed for i64 {
    ghost WIDTH = { 8 };

    ghost of_integer = { λ z. z };

    #[tactic(auto, using(crate::proofs::Signs::cast64), unfolding(numbers::specs::Field::when, numbers::specs::Field::field))]
    fn read(s: &[u8], at: usize) -> Result<i64, Refusal> {
        Ok(numbers::read::<u64>(s, at)?.cast_signed())
    }
}

/// The integer at `at`, as wide as its type.
pub fn read<T: Signed>(s: &[u8], at: usize) -> Result<T, Refusal>
    ensures { result ≡ field Err T.WIDTH s.now at (λ n. Ok (T.of_integer (signed T.WIDTH n))) }
{
    T::read(s, at)
}
