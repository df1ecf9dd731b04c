#![tactic(auto, unfolding(numbers::specs::Field::when, numbers::specs::Field::field))]
// The parts of an elementary stream's descriptor in a box (`esds`), each lent where it lies.
ghost use Rattle.std.specs.Prelude.{◌≡◌};
ghost use Rattle.esds.specs.Esds.{url_of, info_of, sl_of};

// The URL, as the part of the box where it lies; no bytes where there is none or the box is refused.
pub fn url(part: &[u8]) -> &[u8]
    ensures { result.now ≡ url_of part.now }
{
    let Ok((_, places)) = esds::read(part) else {
        return &part[..0];
    };
    let from = places.url;
    let to = places.url_end;
    &part[from..to]
}

// The DecoderSpecificInfo's content, in the same way.
pub fn info(part: &[u8]) -> &[u8]
    ensures { result.now ≡ info_of part.now }
{
    let Ok((_, places)) = esds::read(part) else {
        return &part[..0];
    };
    let from = places.info;
    let to = places.info_end;
    &part[from..to]
}

// The SLConfig's content, in the same way.
pub fn sl(part: &[u8]) -> &[u8]
    ensures { result.now ≡ sl_of part.now }
{
    let Ok((_, places)) = esds::read(part) else {
        return &part[..0];
    };
    let from = places.sl;
    let to = places.sl_end;
    &part[from..to]
}
