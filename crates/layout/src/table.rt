// A table that lies in place: n fields of w bytes, one after the other.
ghost use Rattle.std.specs.Prelude.{◌≡◌};
ghost use Rattle.layout.specs.Table.{cut_of};

// The first of n fields of w bytes from `at` on that is not whole, without a loop.
pub fn first_cut(b: &[u8], at: usize, n: u64, w: u64) -> Option<usize>
    ensures { result ≡ cut_of n w b.now at }
{
    if n == 0 {
        return None;
    }
    if b.len() < at {
        return Some(at);
    }
    if w == 0 {
        return None;
    }
    let room = (b.len() - at) as u64;
    let q = room / w;
    if q < n {
        return Some(at + (q * w) as usize);
    }
    None
}
