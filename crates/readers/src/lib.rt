#![tactic(auto, unfolding(numbers::specs::Field::when, numbers::specs::Field::field))]
// What the reader of a box of any type refuses; those of sample entries and their configurations stand in `codings`. A type
// whose content is not read is fine.
ghost use Rattle.std.specs.Prelude.{◌≡◌};
ghost use Rattle.emsg.specs.Emsg.{emsg_of};
ghost use Rattle.trex.specs.Trex.{trex_of};
ghost use Rattle.mdhd.specs.Mdhd.{mdhd_of};
ghost use Rattle.tkhd.specs.Tkhd.{tkhd_of};
ghost use Rattle.elst.specs.Elst.{elst_of};
ghost use Rattle.hdlr.specs.Hdlr.{hdlr_of};
ghost use Rattle.dref.specs.Dref.{dref_of};
ghost use Rattle.url_box.specs.Url.{url_of};
ghost use Rattle.stsd.specs.Stsd.{stsd_of};
ghost use Rattle.stts.specs.Stts.{stts_of};
ghost use Rattle.ctts.specs.Ctts.{ctts_of};
ghost use Rattle.stsc.specs.Stsc.{stsc_of};
ghost use Rattle.stss.specs.Stss.{stss_of};
ghost use Rattle.stsz.specs.Stsz.{stsz_of};
ghost use Rattle.stco.specs.Stco.{stco_of};
ghost use Rattle.co64.specs.Co64.{co64_of};
ghost use Rattle.mfhd.specs.Mfhd.{mfhd_of};
ghost use Rattle.tfhd.specs.Tfhd.{tfhd_of};
ghost use Rattle.tfdt.specs.Tfdt.{tfdt_of};
ghost use Rattle.trun.specs.Trun.{trun_of};
ghost use Rattle.readers.specs.Readers.{fault_of, emsg_fault, trex_fault, tkhd_fault, elst_fault, mdhd_fault};
ghost use Rattle.readers.specs.Readers.{hdlr_fault, dref_fault, url_fault, stsd_fault, stts_fault, ctts_fault};
ghost use Rattle.readers.specs.Readers.{stsc_fault, stsz_fault, stco_fault, co64_fault, stss_fault, mfhd_fault};
ghost use Rattle.readers.specs.Readers.{tfhd_fault, tfdt_fault, trun_fault};

use numbers::Refusal;
use places::kinds;

fn emsg(part: &[u8]) -> Result<(), Refusal>
    ensures { result ≡ emsg_fault (emsg_of part.now) }
{
    emsg::read(part)?;
    Ok(())
}

fn trex(part: &[u8]) -> Result<(), Refusal>
    ensures { result ≡ trex_fault (trex_of part.now) }
{
    trex::read(part)?;
    Ok(())
}

fn tkhd(part: &[u8]) -> Result<(), Refusal>
    ensures { result ≡ tkhd_fault (tkhd_of part.now) }
{
    tkhd::read(part)?;
    Ok(())
}

fn elst(part: &[u8]) -> Result<(), Refusal>
    ensures { result ≡ elst_fault (elst_of part.now) }
{
    elst::read(part)?;
    Ok(())
}

fn mdhd(part: &[u8]) -> Result<(), Refusal>
    ensures { result ≡ mdhd_fault (mdhd_of part.now) }
{
    mdhd::read(part)?;
    Ok(())
}

fn hdlr(part: &[u8]) -> Result<(), Refusal>
    ensures { result ≡ hdlr_fault (hdlr_of part.now) }
{
    hdlr::read(part)?;
    Ok(())
}

fn dref(part: &[u8]) -> Result<(), Refusal>
    ensures { result ≡ dref_fault (dref_of part.now) }
{
    dref::read(part)?;
    Ok(())
}

fn url(part: &[u8]) -> Result<(), Refusal>
    ensures { result ≡ url_fault (url_of part.now) }
{
    url_box::read(part)?;
    Ok(())
}

fn stsd(part: &[u8]) -> Result<(), Refusal>
    ensures { result ≡ stsd_fault (stsd_of part.now) }
{
    stsd::read(part)?;
    Ok(())
}

fn stts(part: &[u8]) -> Result<(), Refusal>
    ensures { result ≡ stts_fault (stts_of part.now) }
{
    stts::read(part)?;
    Ok(())
}

fn ctts(part: &[u8]) -> Result<(), Refusal>
    ensures { result ≡ ctts_fault (ctts_of part.now) }
{
    ctts::read(part)?;
    Ok(())
}

fn stsc(part: &[u8]) -> Result<(), Refusal>
    ensures { result ≡ stsc_fault (stsc_of part.now) }
{
    stsc::read(part)?;
    Ok(())
}

fn stsz(part: &[u8]) -> Result<(), Refusal>
    ensures { result ≡ stsz_fault (stsz_of part.now) }
{
    stsz::read(part)?;
    Ok(())
}

fn stco(part: &[u8]) -> Result<(), Refusal>
    ensures { result ≡ stco_fault (stco_of part.now) }
{
    stco::read(part)?;
    Ok(())
}

fn co64(part: &[u8]) -> Result<(), Refusal>
    ensures { result ≡ co64_fault (co64_of part.now) }
{
    co64::read(part)?;
    Ok(())
}

fn stss(part: &[u8]) -> Result<(), Refusal>
    ensures { result ≡ stss_fault (stss_of part.now) }
{
    stss::read(part)?;
    Ok(())
}

fn mfhd(part: &[u8]) -> Result<(), Refusal>
    ensures { result ≡ mfhd_fault (mfhd_of part.now) }
{
    mfhd::read(part)?;
    Ok(())
}

fn tfhd(part: &[u8]) -> Result<(), Refusal>
    ensures { result ≡ tfhd_fault (tfhd_of part.now) }
{
    tfhd::read(part)?;
    Ok(())
}

fn tfdt(part: &[u8]) -> Result<(), Refusal>
    ensures { result ≡ tfdt_fault (tfdt_of part.now) }
{
    tfdt::read(part)?;
    Ok(())
}

fn trun(part: &[u8]) -> Result<(), Refusal>
    ensures { result ≡ trun_fault (trun_of part.now) }
{
    trun::read(part)?;
    Ok(())
}

// The refusal of the reader of this type, its positions from the part's start on.
pub fn fault(kind: u32, part: &[u8]) -> Result<(), Refusal>
    ensures { result ≡ fault_of kind part.now }
{
    if kind == kinds::EMSG {
        return emsg(part);
    }
    if kind == kinds::TREX {
        return trex(part);
    }
    if kind == kinds::TKHD {
        return tkhd(part);
    }
    if kind == kinds::ELST {
        return elst(part);
    }
    if kind == kinds::MDHD {
        return mdhd(part);
    }
    if kind == kinds::HDLR {
        return hdlr(part);
    }
    if kind == kinds::DREF {
        return dref(part);
    }
    if kind == kinds::URL {
        return url(part);
    }
    if kind == kinds::STSD {
        return stsd(part);
    }
    if kind == kinds::STTS {
        return stts(part);
    }
    if kind == kinds::CTTS {
        return ctts(part);
    }
    if kind == kinds::STSC {
        return stsc(part);
    }
    if kind == kinds::STSZ {
        return stsz(part);
    }
    if kind == kinds::STCO {
        return stco(part);
    }
    if kind == kinds::CO64 {
        return co64(part);
    }
    if kind == kinds::STSS {
        return stss(part);
    }
    if kind == kinds::MFHD {
        return mfhd(part);
    }
    if kind == kinds::TFHD {
        return tfhd(part);
    }
    if kind == kinds::TFDT {
        return tfdt(part);
    }
    if kind == kinds::TRUN {
        return trun(part);
    }
    codings::fault(kind, part)
}
