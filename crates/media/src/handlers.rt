// The kind of a track, by the handler type in its hdlr.
ghost use Rattle.std.specs.Prelude.{◌≡◌};
ghost use Rattle.media.specs.Handlers.{kind_of, letters_of};

use numbers::Refusal;

#[derive(Clone, Copy)]
pub enum Kind {
    Video,
    Audio,
    Subtitle,
}

// 'vide', 'soun' and 'sbtl'.
const VIDE: u32 = 0x7669_6465;

const SOUN: u32 = 0x736f_756e;

const SBTL: u32 = 0x7362_746c;

pub fn kind_of(letters: u32) -> Result<Kind, Refusal>
    ensures { result ≡ kind_of letters }
{
    if letters == VIDE {
        return Ok(Kind::Video);
    }
    if letters == SOUN {
        return Ok(Kind::Audio);
    }
    if letters == SBTL {
        return Ok(Kind::Subtitle);
    }
    Err(Refusal::Value(0))
}

pub fn letters_of(kind: Kind) -> u32
    ensures { result ≡ letters_of kind }
{
    match kind {
        Kind::Video => VIDE,
        Kind::Audio => SOUN,
        Kind::Subtitle => SBTL,
    }
}
