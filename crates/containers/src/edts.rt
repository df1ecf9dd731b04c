// The edits of a track (ISO/IEC 14496-12, 8.6.5): boxes, and where its edit list lies.
ghost use Rattle.std.specs.Prelude.{◌≡◌};
ghost use Rattle.containers.specs.Edts.{edts_of};

use numbers::Refusal;
use places::kinds;

#[derive(Clone, Copy)]
pub struct Edts {
    pub elst: Option<usize>,
}

pub fn read(part: &[u8]) -> Result<Edts, Refusal>
    ensures { result ≡ edts_of part.now }
{
    children::whole(part, kinds::EDTS)?;
    Ok(Edts {
        elst: children::place_of(part, kinds::EDTS, kinds::ELST),
    })
}
