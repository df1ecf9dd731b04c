#![tactic(auto, unfolding(numbers::specs::Field::when, numbers::specs::Field::field))]
// A duration in microseconds.
ghost use Rattle.std.specs.Prelude.{◌≡◌};
ghost use Rattle.duration.specs.Duration.{micros_of};

use numbers::Refusal;

// The largest duration whose product with a million is a 64-bit number.
const LONGEST: u64 = 18_446_744_073_709;

pub fn micros(duration: u64, timescale: u32) -> Result<u64, Refusal>
    ensures { result ≡ micros_of duration timescale }
{
    if timescale == 0 {
        return Err(Refusal::Value(0));
    }
    if LONGEST < duration {
        return Err(Refusal::Overflow);
    }
    Ok(duration * 1_000_000 / (timescale as u64))
}
