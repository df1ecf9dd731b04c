// Where the media of a track lie (ISO/IEC 14496-12, 8.7.1): boxes, and where the list of references lies.
ghost use Rattle.std.specs.Prelude.{◌≡◌};
ghost use Rattle.containers.specs.Dinf.{dinf_of};

use numbers::Refusal;
use places::kinds;

#[derive(Clone, Copy)]
pub struct Dinf {
    pub dref: Option<usize>,
}

pub fn read(part: &[u8]) -> Result<Dinf, Refusal>
    ensures { result ≡ dinf_of part.now }
{
    children::whole(part, kinds::DINF)?;
    Ok(Dinf {
        dref: children::place_of(part, kinds::DINF, kinds::DREF),
    })
}
