#![tactic(auto, unfolding(numbers::specs::Field::when, numbers::specs::Field::field))]
// The parameter sets of an AVC decoder's configuration (`avcc`) and its extension, each lent where it lies.
ghost use Rattle.std.specs.Prelude.{◌≡◌};
ghost use Rattle.avcc.specs.Avcc.{sps_list_of, pps_list_of, extension_of, sps_of, pps_of};

// The sequence parameter sets with their lengths, as the part of the box where they lie; no bytes where the box is
// refused.
pub fn sps_list(part: &[u8]) -> &[u8]
    ensures { result.now ≡ sps_list_of part.now }
{
    let Ok((_, places)) = avcc::read(part) else {
        return &part[..0];
    };
    let from = places.sps;
    let to = places.sps_end;
    &part[from..to]
}

// The picture parameter sets, in the same way.
pub fn pps_list(part: &[u8]) -> &[u8]
    ensures { result.now ≡ pps_list_of part.now }
{
    let Ok((_, places)) = avcc::read(part) else {
        return &part[..0];
    };
    let from = places.pps;
    let to = places.pps_end;
    &part[from..to]
}

// The extension of the high profiles, in the same way. It is not looked into, and so nothing is skipped.
pub fn extension(part: &[u8]) -> &[u8]
    ensures { result.now ≡ extension_of part.now }
{
    let Ok((_, places)) = avcc::read(part) else {
        return &part[..0];
    };
    let from = places.pps_end;
    let to = places.end;
    &part[from..to]
}

// The i-th sequence parameter set, counted from 0, as the part of the box where it lies; no bytes where the box is
// refused or has no such set.
pub fn sps(part: &[u8], i: u8) -> &[u8]
    ensures { result.now ≡ sps_of i part.now }
{
    let sequences = sps_list(part);
    sets::nth(sequences, 0, i as usize)
}

// The i-th picture parameter set, in the same way.
pub fn pps(part: &[u8], i: u8) -> &[u8]
    ensures { result.now ≡ pps_of i part.now }
{
    let pictures = pps_list(part);
    sets::nth(pictures, 0, i as usize)
}
