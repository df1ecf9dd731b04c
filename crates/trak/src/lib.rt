#![tactic(auto, unfolding(numbers::specs::Field::when, numbers::specs::Field::field))]
// Where the boxes of a trak lie (ISO/IEC 14496-12, 8.3.1): each as the part of the trak from the box's header to its end;
// no bytes where it is not there, or where a fault comes before it.
ghost use Rattle.std.specs.Prelude.{◌≡◌};
ghost use Rattle.trak.specs.Trak.{within, mdia_of, minf_of, stsd_of, tkhd_of, mdhd_of, hdlr_of, stbl_of, stsz_of, entry_of, missing_in_mdia, missing_in_stbl};

use places::kinds;

// The first box of a type in a box of the type `parent`.
#[tactic(auto, unfolding(numbers::specs::Field::when, numbers::specs::Field::field, crate::specs::Trak::within))]
fn within(part: &[u8], parent: u32, kind: u32) -> &[u8]
    ensures { result.now ≡ within parent kind part.now }
{
    let inside = wrap::content(part, parent);
    boxparts::first_box(inside, kind)
}

fn mdia(trak: &[u8]) -> &[u8]
    ensures { result.now ≡ mdia_of trak.now }
{
    within(trak, kinds::TRAK, kinds::MDIA)
}

fn minf(trak: &[u8]) -> &[u8]
    ensures { result.now ≡ minf_of trak.now }
{
    let media = mdia(trak);
    within(media, kinds::MDIA, kinds::MINF)
}

pub fn tkhd(trak: &[u8]) -> &[u8]
    ensures { result.now ≡ tkhd_of trak.now }
{
    within(trak, kinds::TRAK, kinds::TKHD)
}

pub fn mdhd(trak: &[u8]) -> &[u8]
    ensures { result.now ≡ mdhd_of trak.now }
{
    let media = mdia(trak);
    within(media, kinds::MDIA, kinds::MDHD)
}

pub fn hdlr(trak: &[u8]) -> &[u8]
    ensures { result.now ≡ hdlr_of trak.now }
{
    let media = mdia(trak);
    within(media, kinds::MDIA, kinds::HDLR)
}

pub fn stbl(trak: &[u8]) -> &[u8]
    ensures { result.now ≡ stbl_of trak.now }
{
    let information = minf(trak);
    within(information, kinds::MINF, kinds::STBL)
}

pub fn stsz(trak: &[u8]) -> &[u8]
    ensures { result.now ≡ stsz_of trak.now }
{
    let table = stbl(trak);
    within(table, kinds::STBL, kinds::STSZ)
}

pub fn stsd(trak: &[u8]) -> &[u8]
    ensures { result.now ≡ stsd_of trak.now }
{
    let table = stbl(trak);
    within(table, kinds::STBL, kinds::STSD)
}

// The first sample entry of the stsd.
pub fn entry(trak: &[u8]) -> &[u8]
    ensures { result.now ≡ entry_of trak.now }
{
    let described = stsd(trak);
    stsd::entry(described, 0)
}

// Which box is missing where there is none of the type `kind` in the mdia: the mdia itself, or that one.
pub fn missing_in_mdia(trak: &[u8], kind: u32) -> u32
    ensures { result ≡ missing_in_mdia kind trak.now }
{
    let parent = mdia(trak);
    if parent.len() == 0 {
        return kinds::MDIA;
    }
    kind
}

// The same of the stbl: the first that is missing on the way to it, or that one.
pub fn missing_in_stbl(trak: &[u8], kind: u32) -> u32
    ensures { result ≡ missing_in_stbl kind trak.now }
{
    if mdia(trak).len() == 0 {
        return kinds::MDIA;
    }
    if minf(trak).len() == 0 {
        return kinds::MINF;
    }
    if stbl(trak).len() == 0 {
        return kinds::STBL;
    }
    kind
}
