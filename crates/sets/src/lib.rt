#![tactic(auto, unfolding(numbers::specs::Field::when, numbers::specs::Field::field))]
// Lists of parameter sets, as a decoder's configuration holds them (ISO/IEC 14496-15, 5.3.3.1.2): each set is its length
// in two bytes, then so many bytes. A list does not say how many sets it has: its reader is told.
ghost use Rattle.std.specs.Prelude.{◌≡◌, ◌+◌, ◌≤◌, length, IfOk};
ghost use Rattle.put.specs.Put.{wrote};
ghost use Rattle.sets.specs.Sets.{one_of, end_of, nth_of, filled_by, set_in};

use numbers::Refusal;

// One set at `at`: first its length is whole, then its bytes.
fn one(s: &[u8], at: usize) -> Result<usize, Refusal>
    ensures value { result ≡ one_of s.now at }
    ensures inside { IfOk result (λ e. (at + 2 ≤ e) × (e ≤ length s.now)) }
{
    let n = numbers::read::<u16>(s, at)?;
    let from = at + 2;
    let len = n as usize;
    if s.len() - from < len {
        return Err(Refusal::Cut(from));
    }
    Ok(from + len)
}

// The position after n sets from `at` on.
pub fn end_of(s: &[u8], at: usize, n: usize) -> Result<usize, Refusal>
    ensures { result ≡ end_of n s.now at }
{
    let mut p = at;
    let mut left = n;
    while 0 < left {
        p = one(s, p)?;
        left = left - 1;
    }
    Ok(p)
}

// The i-th set from `at` on, counted from 0, without its length, as the part of the bytes where it lies; no bytes where
// it is not whole.
pub fn nth(s: &[u8], at: usize, i: usize) -> &[u8]
    ensures { result.now ≡ nth_of i s.now at }
{
    let Ok(start) = end_of(s, at, i) else {
        return &s[..0];
    };
    let Ok(end) = one(s, start) else {
        return &s[..0];
    };
    let from = start + 2;
    &s[from..end]
}

// Whether a list is n sets, whole, and nothing else.
pub fn filled_by(list: &[u8], n: usize) -> bool
    ensures { result ≡ filled_by n list.now }
{
    match end_of(list, 0, n) {
        Err(_) => false,
        Ok(end) => end == list.len(),
    }
}

// A set with its length, at `at` of a list. 13 where the length has no two bytes.
pub fn put_set(list: &mut [u8], at: usize, set: &[u8]) -> Result<usize, Refusal>
    ensures { wrote result list.new ≡ set_in set.now at list.old }
{
    let len = set.len();
    if 0xffff < len {
        return Err(Refusal::Unwritable);
    }
    if 0xffff_ffff_ffff_ffff - 2 - len < at {
        return Err(Refusal::Overflow);
    }
    let end = at + 2 + len;
    if list.len() < end {
        return Err(Refusal::TooSmall(end));
    }
    put::write::<u16>(list, at, len as u16)?;
    put::part(list, at + 2, set)
}
