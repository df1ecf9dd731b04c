#![tactic(auto, unfolding(numbers::specs::Field::when, numbers::specs::Field::field))]
// The number of a box that is held against other boxes, and where it stands. It is read from the fields up to it, so
// what lies behind it may be cut or wrong.
ghost use Rattle.std.specs.Prelude.{◌≡◌, [], ◌∷◌, ◌<◌, set};
ghost use Rattle.layout.specs.Read.{read_of};
ghost use Rattle.layout.specs.Write.{padded};
ghost use Rattle.keys.specs.Key.{key_in, key_of};

use layout::Field;
use places::kinds;

// A time, which is wider in version 1, and a track's number, which is not 0.
const TIME: Field = Field::Wide(4, 8);

const TRACK: Field = Field::Least(4, 1);

const NONE: Field = Field::Nothing;

// A row of at most five fields.
fn row(a: Field, b: Field, c: Field, d: Field, e: Field) -> [Field; 24]
    ensures { result ≡ padded (a ∷ b ∷ c ∷ d ∷ e ∷ []) }
{
    let mut fields = [Field::Nothing; 24];
    fields[0] = a;
    fields[1] = b;
    fields[2] = c;
    fields[3] = d;
    fields[4] = e;
    fields
}

// The last field of a row, in this slot: it begins where the fields before it end.
fn last(kind: u32, part: &[u8], row: [Field; 24], slot: usize) -> Option<(u64, usize)>
    requires { slot < 24 }
    ensures { result ≡ key_in slot (read_of kind (set row slot Field.Nothing) part.now) (read_of kind row part.now) }
{
    let got = layout::read::by(part, kind, row).ok()?;
    let mut first = row;
    first[slot] = Field::Nothing;
    let before = layout::read::by(part, kind, first).ok()?;
    let v = got.values;
    Some((v[slot], before.place))
}

// The key of a box of this type: its value, and the position of its field from the part's start on.
pub fn find(kind: u32, part: &[u8]) -> Option<(u64, usize)>
    ensures { result ≡ key_of kind part.now }
{
    if kind == kinds::TKHD {
        let fields = row(Field::Version(0, 1), Field::Flags, TIME, TIME, TRACK);
        return last(kind, part, fields, 4);
    }
    if kind == kinds::TREX {
        let fields = row(Field::Version(0, 0), Field::Flags, TRACK, NONE, NONE);
        return last(kind, part, fields, 2);
    }
    if kind == kinds::TFHD {
        let fields = row(Field::Version(0, 0), Field::Flags, TRACK, NONE, NONE);
        return last(kind, part, fields, 2);
    }
    if kind == kinds::STSZ {
        let fields = row(
            Field::Version(0, 0),
            Field::Flags,
            Field::Number(4),
            Field::Number(4),
            NONE,
        );
        return last(kind, part, fields, 3);
    }
    if kind == kinds::TRUN {
        let fields = row(
            Field::Version(0, 1),
            Field::Flags,
            Field::Number(4),
            NONE,
            NONE,
        );
        return last(kind, part, fields, 2);
    }
    if kind == kinds::URL {
        let fields = row(Field::Version(0, 0), Field::Flags, NONE, NONE, NONE);
        return last(kind, part, fields, 1);
    }
    None
}
