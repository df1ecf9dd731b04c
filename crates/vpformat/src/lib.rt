#![tactic(auto, unfolding(numbers::specs::Field::when, numbers::specs::Field::field))]
// The byte of a vpcC that tells the bit depth, the chroma subsampling and the range (VP Codec ISO Media File Format Binding).
ghost use Rattle.std.specs.Prelude.{◌≡◌, ◌≤◌};
ghost use Rattle.numbers.specs.Field.{when};
ghost use Rattle.vpformat.specs.Sampling.{depth_of, chroma_of, full_of, sampling_of};

use numbers::Refusal;

// What the byte `sampling` holds: the bit depth in its 4 high bits, the chroma subsampling in 3, the range in the last.
pub fn bit_depth(sampling: u8) -> u8
    ensures { result ≡ depth_of sampling }
{
    sampling / 16
}

pub fn chroma(sampling: u8) -> u8
    ensures { result ≡ chroma_of sampling }
{
    sampling / 2 % 8
}

pub fn full_range(sampling: u8) -> bool
    ensures { result ≡ full_of sampling }
{
    sampling % 2 == 1
}

fn bit(set: bool) -> u8
    ensures { (result ≡ when set 1 0) × (result ≤ 1) }
{
    if set { 1 } else { 0 }
}

// The byte that holds them; Unwritable where a number has no such bits.
pub fn sampling(depth: u8, chroma: u8, full: bool) -> Result<u8, Refusal>
    ensures { result ≡ sampling_of depth chroma full }
{
    if 15 < depth {
        return Err(Refusal::Unwritable);
    }
    if 7 < chroma {
        return Err(Refusal::Unwritable);
    }
    Ok(depth * 16 + chroma * 2 + bit(full))
}
