#![tactic(auto, unfolding(numbers::specs::Field::when, numbers::specs::Field::field))]
// The profile of an H.264 stream, by the two bytes of its avcC.
ghost use Rattle.std.specs.Prelude.{◌≡◌};
ghost use Rattle.profiles.specs.Profiles.{profile_of};

use numbers::Refusal;

#[derive(Clone, Copy)]
pub enum Profile {
    ConstrainedBaseline,
    Baseline,
    Main,
    Extended,
    High,
}

pub fn profile_of(indication: u8, compatibility: u8) -> Result<Profile, Refusal>
    ensures { result ≡ profile_of indication compatibility }
{
    if indication == 66 {
        // constraint_set1_flag is the second bit from the top.
        if compatibility / 0x40 % 2 == 1 {
            return Ok(Profile::ConstrainedBaseline);
        }
        return Ok(Profile::Baseline);
    }
    if indication == 77 {
        return Ok(Profile::Main);
    }
    if indication == 88 {
        return Ok(Profile::Extended);
    }
    if indication == 100 {
        return Ok(Profile::High);
    }
    Err(Refusal::Value(0))
}
