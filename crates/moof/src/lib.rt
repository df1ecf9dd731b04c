#![tactic(auto, unfolding(numbers::specs::Field::when, numbers::specs::Field::field))]
// A fragment of a movie (ISO/IEC 14496-12, 8.8.4): boxes, and where its header and the first track's part lie.
ghost use Rattle.std.specs.Prelude.{◌≡◌};
ghost use Rattle.moof.specs.Moof.{moof_of};

use numbers::Refusal;
use places::kinds;

#[derive(Clone, Copy)]
pub struct Moof {
    pub mfhd: Option<usize>,
    pub traf: Option<usize>,
}

pub fn read(part: &[u8]) -> Result<Moof, Refusal>
    ensures { result ≡ moof_of part.now }
{
    children::whole(part, kinds::MOOF)?;
    Ok(Moof {
        mfhd: children::place_of(part, kinds::MOOF, kinds::MFHD),
        traf: children::place_of(part, kinds::MOOF, kinds::TRAF),
    })
}
