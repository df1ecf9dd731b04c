// Where a box is read: the pairs of a parent and a type. A box elsewhere is unknown there, and skipped.
ghost use Rattle.std.specs.Prelude.{◌≡◌};
ghost use Rattle.places.specs.Places.{listed, places, is_container, held_of};

use crate::kinds;

// The file itself, as the parent of the boxes at the top.
pub const FILE: u32 = 0;

// A parent, and a type that is read in it.
#[derive(Clone, Copy)]
pub struct Place(pub u32, pub u32);

const PLACES: [Place; 40] = [
    Place(FILE, kinds::FTYP),
    Place(FILE, kinds::MOOV),
    Place(FILE, kinds::MOOF),
    Place(FILE, kinds::MDAT),
    Place(FILE, kinds::EMSG),
    Place(kinds::MOOV, kinds::MVHD),
    Place(kinds::MOOV, kinds::TRAK),
    Place(kinds::MOOV, kinds::MVEX),
    Place(kinds::MVEX, kinds::TREX),
    Place(kinds::TRAK, kinds::TKHD),
    Place(kinds::TRAK, kinds::EDTS),
    Place(kinds::TRAK, kinds::MDIA),
    Place(kinds::EDTS, kinds::ELST),
    Place(kinds::MDIA, kinds::MDHD),
    Place(kinds::MDIA, kinds::HDLR),
    Place(kinds::MDIA, kinds::MINF),
    Place(kinds::MINF, kinds::DINF),
    Place(kinds::MINF, kinds::STBL),
    Place(kinds::DINF, kinds::DREF),
    Place(kinds::DREF, kinds::URL),
    Place(kinds::STBL, kinds::STSD),
    Place(kinds::STBL, kinds::STTS),
    Place(kinds::STBL, kinds::CTTS),
    Place(kinds::STBL, kinds::STSC),
    Place(kinds::STBL, kinds::STSZ),
    Place(kinds::STBL, kinds::STCO),
    Place(kinds::STBL, kinds::CO64),
    Place(kinds::STBL, kinds::STSS),
    Place(kinds::STSD, kinds::AVC1),
    Place(kinds::STSD, kinds::MP4A),
    Place(kinds::STSD, kinds::VP09),
    Place(kinds::STSD, kinds::TX3G),
    Place(kinds::AVC1, kinds::AVCC),
    Place(kinds::MP4A, kinds::ESDS),
    Place(kinds::VP09, kinds::VPCC),
    Place(kinds::MOOF, kinds::MFHD),
    Place(kinds::MOOF, kinds::TRAF),
    Place(kinds::TRAF, kinds::TFHD),
    Place(kinds::TRAF, kinds::TFDT),
    Place(kinds::TRAF, kinds::TRUN),
];

// Whether a box of this type is read in a parent of that type.
pub fn belongs(home: u32, kind: u32) -> bool
    ensures { result ≡ listed home kind places }
{
    let mut i = 0;
    while i < 40 {
        let place = PLACES[i];
        if (place.0 == home) & (place.1 == kind) {
            return true;
        }
        i = i + 1;
    }
    false
}

// The ten types whose whole content is boxes.
fn is_container(kind: u32) -> bool
    ensures { result ≡ is_container kind }
{
    (kind == kinds::MOOV)
        | (kind == kinds::MVEX)
        | (kind == kinds::TRAK)
        | (kind == kinds::EDTS)
        | (kind == kinds::MDIA)
        | (kind == kinds::MINF)
        | (kind == kinds::DINF)
        | (kind == kinds::STBL)
        | (kind == kinds::MOOF)
        | (kind == kinds::TRAF)
}

// What a box holds: no boxes, boxes to its end, or as many as a count says; after how many bytes of content.
#[derive(Clone, Copy)]
pub enum Inside {
    Nothing,
    Boxes(usize),
    Counted(usize),
}

// Plain containers are entered wherever they stand, the others only in their place.
pub fn held(kind: u32, placed: bool) -> Inside
    ensures { result ≡ held_of kind placed }
{
    if is_container(kind) {
        return Inside::Boxes(0);
    }
    if placed {
        if (kind == kinds::STSD) | (kind == kinds::DREF) {
            return Inside::Counted(8);
        }
        if (kind == kinds::AVC1) | (kind == kinds::VP09) {
            return Inside::Boxes(78);
        }
        if kind == kinds::MP4A {
            return Inside::Boxes(28);
        }
    }
    Inside::Nothing
}
