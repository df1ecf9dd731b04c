#![tactic(auto, unfolding(numbers::specs::Field::when, numbers::specs::Field::field))]
// The part of a track in a fragment (ISO/IEC 14496-12, 8.8.6): boxes, and where its header, its time and its first run
// lie.
ghost use Rattle.std.specs.Prelude.{◌≡◌};
ghost use Rattle.traf.specs.Traf.{traf_of};

use numbers::Refusal;
use places::kinds;

#[derive(Clone, Copy)]
pub struct Traf {
    pub tfhd: Option<usize>,
    pub tfdt: Option<usize>,
    pub trun: Option<usize>,
}

pub fn read(part: &[u8]) -> Result<Traf, Refusal>
    ensures { result ≡ traf_of part.now }
{
    children::whole(part, kinds::TRAF)?;
    Ok(Traf {
        tfhd: children::place_of(part, kinds::TRAF, kinds::TFHD),
        tfdt: children::place_of(part, kinds::TRAF, kinds::TFDT),
        trun: children::place_of(part, kinds::TRAF, kinds::TRUN),
    })
}
