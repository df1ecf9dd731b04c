// The channel configuration of an AAC configuration: mono, stereo, and so on to 7.1.
ghost use Rattle.std.specs.Prelude.{◌≡◌};
ghost use Rattle.audio.specs.Channels.{configuration};

use numbers::Refusal;

pub fn configuration(n: u8) -> Result<u8, Refusal>
    ensures { result ≡ configuration n }
{
    if n == 0 {
        return Err(Refusal::Value(0));
    }
    if 7 < n {
        return Err(Refusal::Value(0));
    }
    Ok(n)
}
