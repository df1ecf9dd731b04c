#![tactic(auto, unfolding(numbers::specs::Field::when, numbers::specs::Field::field))]
// What the readers of the boxes that say how samples are coded refuse: sample entries, and their configurations. A type
// whose content is not read is fine.
ghost use Rattle.std.specs.Prelude.{◌≡◌};
ghost use Rattle.visual.specs.Visual.{visual_of};
ghost use Rattle.avcc.specs.Avcc.{avcc_of};
ghost use Rattle.mp4a.specs.Mp4a.{mp4a_of};
ghost use Rattle.esds.specs.Esds.{esds_of};
ghost use Rattle.vpcc.specs.Vpcc.{vpcc_of};
ghost use Rattle.tx3g.specs.Tx3g.{tx3g_of};
ghost use Rattle.codings.specs.Codings.{coding_of, visual_fault, avcc_fault, mp4a_fault, esds_fault, vpcc_fault, tx3g_fault};

use numbers::Refusal;
use places::kinds;

// A visual sample entry, of this type.
fn visual(kind: u32, part: &[u8]) -> Result<(), Refusal>
    ensures { result ≡ visual_fault (visual_of kind part.now) }
{
    visual::read(part, kind)?;
    Ok(())
}

fn avcc(part: &[u8]) -> Result<(), Refusal>
    ensures { result ≡ avcc_fault (avcc_of part.now) }
{
    avcc::read(part)?;
    Ok(())
}

fn mp4a(part: &[u8]) -> Result<(), Refusal>
    ensures { result ≡ mp4a_fault (mp4a_of part.now) }
{
    mp4a::read(part)?;
    Ok(())
}

fn esds(part: &[u8]) -> Result<(), Refusal>
    ensures { result ≡ esds_fault (esds_of part.now) }
{
    esds::read(part)?;
    Ok(())
}

fn vpcc(part: &[u8]) -> Result<(), Refusal>
    ensures { result ≡ vpcc_fault (vpcc_of part.now) }
{
    vpcc::read(part)?;
    Ok(())
}

fn tx3g(part: &[u8]) -> Result<(), Refusal>
    ensures { result ≡ tx3g_fault (tx3g_of part.now) }
{
    tx3g::read(part)?;
    Ok(())
}

// The refusal of the reader of this type, its positions from the part's start on.
pub fn fault(kind: u32, part: &[u8]) -> Result<(), Refusal>
    ensures { result ≡ coding_of kind part.now }
{
    if kind == kinds::AVC1 {
        return visual(kind, part);
    }
    if kind == kinds::VP09 {
        return visual(kind, part);
    }
    if kind == kinds::AVCC {
        return avcc(part);
    }
    if kind == kinds::MP4A {
        return mp4a(part);
    }
    if kind == kinds::ESDS {
        return esds(part);
    }
    if kind == kinds::VPCC {
        return vpcc(part);
    }
    if kind == kinds::TX3G {
        return tx3g(part);
    }
    Ok(())
}
