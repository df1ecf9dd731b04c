#![tactic(auto)]
// A box's bytes in the bytes of a file.
ghost use Rattle.std.specs.Prelude.{◌≡◌};
ghost use Rattle.parts.specs.Parts.{part_of};

// As much of the `size` bytes from `start` on as there are.
pub fn part(s: &[u8], start: usize, size: usize) -> &[u8]
    ensures { result.now ≡ part_of start size s.now }
{
    if s.len() <= start {
        return &s[..0];
    }
    if s.len() - start < size {
        return &s[start..];
    }
    &s[start..start + size]
}
