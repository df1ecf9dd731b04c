#![tactic(auto, unfolding(numbers::specs::Field::when, numbers::specs::Field::field))]
// The flags of a full box (ISO/IEC 14496-12, 4.2): whether one is set, and the value that it chooses.
ghost use Rattle.std.specs.Prelude.{◌≡◌};
ghost use Rattle.numbers.specs.Field.{when};
ghost use Rattle.layout.specs.Rule.{is_set};

// Whether a flag is set; one of 0 is not.
pub fn is_set(flags: u32, bit: u32) -> bool
    ensures { result ≡ is_set flags bit }
{
    if bit == 0 {
        return false;
    }
    flags / bit % 2 == 1
}

// The one value where the flag is set, else the other.
pub fn chosen(flags: u32, bit: u32, own: u32, other: u32) -> u32
    ensures { result ≡ when (is_set flags bit) own other }
{
    if is_set(flags, bit) {
        return own;
    }
    other
}
