// The audio object type of an AAC configuration.
ghost use Rattle.std.specs.Prelude.{◌≡◌};
ghost use Rattle.audio.specs.Objects.{known, object_type};

use numbers::Refusal;

// The others are no type, reserved, or 31, which is the escape to the types above it.
fn is_known(n: u8) -> bool
    ensures { result ≡ known n }
{
    ((1 <= n) & (n <= 9))
        | ((12 <= n) & (n <= 17))
        | ((19 <= n) & (n <= 30))
        | ((32 <= n) & (n <= 46))
}

pub fn object_type(n: u8) -> Result<u8, Refusal>
    ensures { result ≡ object_type n }
{
    if is_known(n) {
        return Ok(n);
    }
    Err(Refusal::Value(0))
}
