#![tactic(auto, unfolding(numbers::specs::Field::when, numbers::specs::Field::field))]
// What the readers of a trak's boxes answer, each of the first box of its type in its place; Missing where that is not there,
// with the type of the first box on the way to it that is missing. A box that a fault comes before is not found, and so missing.
ghost use Rattle.std.specs.Prelude.{◌≡◌};
ghost use Rattle.trak_boxes.specs.TrakBoxes.{tkhd_in, mdhd_in, hdlr_in, stsz_in, stsd_in, kind_in};

use numbers::Refusal;
use places::kinds;

#[tactic(auto, unfolding(numbers::specs::Field::when, numbers::specs::Field::field, crate::specs::TrakBoxes::tkhd_in))]
pub fn tkhd(trak: &[u8]) -> Result<tkhd::Tkhd, Refusal>
    ensures { result ≡ tkhd_in trak.now }
{
    let part = trak::tkhd(trak);
    if part.len() == 0 {
        return Err(Refusal::Missing(kinds::TKHD));
    }
    tkhd::read(part)
}

#[tactic(auto, unfolding(numbers::specs::Field::when, numbers::specs::Field::field, crate::specs::TrakBoxes::mdhd_in))]
pub fn mdhd(trak: &[u8]) -> Result<mdhd::Mdhd, Refusal>
    ensures { result ≡ mdhd_in trak.now }
{
    let part = trak::mdhd(trak);
    if part.len() == 0 {
        return Err(Refusal::Missing(trak::missing_in_mdia(trak, kinds::MDHD)));
    }
    mdhd::read(part)
}

#[tactic(auto, unfolding(numbers::specs::Field::when, numbers::specs::Field::field, crate::specs::TrakBoxes::hdlr_in))]
pub fn hdlr(trak: &[u8]) -> Result<hdlr::Hdlr, Refusal>
    ensures { result ≡ hdlr_in trak.now }
{
    let part = trak::hdlr(trak);
    if part.len() == 0 {
        return Err(Refusal::Missing(trak::missing_in_mdia(trak, kinds::HDLR)));
    }
    hdlr::read(part)
}

#[tactic(auto, unfolding(numbers::specs::Field::when, numbers::specs::Field::field, crate::specs::TrakBoxes::stsz_in))]
pub fn stsz(trak: &[u8]) -> Result<(stsz::Stsz, usize), Refusal>
    ensures { result ≡ stsz_in trak.now }
{
    let part = trak::stsz(trak);
    if part.len() == 0 {
        return Err(Refusal::Missing(trak::missing_in_stbl(trak, kinds::STSZ)));
    }
    stsz::read(part)
}

#[tactic(auto, unfolding(numbers::specs::Field::when, numbers::specs::Field::field, crate::specs::TrakBoxes::stsd_in))]
pub fn stsd(trak: &[u8]) -> Result<stsd::Stsd, Refusal>
    ensures { result ≡ stsd_in trak.now }
{
    let part = trak::stsd(trak);
    if part.len() == 0 {
        return Err(Refusal::Missing(trak::missing_in_stbl(trak, kinds::STSD)));
    }
    stsd::read(part)
}

// The type of the first sample entry; 0 where the stsd has none.
pub fn entry_kind(trak: &[u8]) -> Result<u32, Refusal>
    ensures { result ≡ kind_in trak.now }
{
    stsd(trak)?;
    let entry = trak::entry(trak);
    let letters = words::four(entry, 0, 4);
    Ok(letters)
}
