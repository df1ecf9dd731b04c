// What a movie says of its fragments (ISO/IEC 14496-12, 8.8.1): boxes, and where the first track's defaults lie.
ghost use Rattle.std.specs.Prelude.{◌≡◌};
ghost use Rattle.containers.specs.Mvex.{mvex_of};

use numbers::Refusal;
use places::kinds;

#[derive(Clone, Copy)]
pub struct Mvex {
    pub trex: Option<usize>,
}

pub fn read(part: &[u8]) -> Result<Mvex, Refusal>
    ensures { result ≡ mvex_of part.now }
{
    children::whole(part, kinds::MVEX)?;
    Ok(Mvex {
        trex: children::place_of(part, kinds::MVEX, kinds::TREX),
    })
}
