#![tactic(auto, unfolding(numbers::specs::Field::when, numbers::specs::Field::field))]
// The entries of a table, judged where they lie: each field first whole, then allowed, entry after entry.
ghost use Rattle.std.specs.Prelude.{◌≡◌, min};
ghost use Rattle.rows.specs.Rows.{width_of, time_of, allowed_of, last_of, entry_of, entries_of};

use numbers::Refusal;

// A field of an entry. Widths are in bytes, 8 at most.
#[derive(Clone, Copy)]
pub enum Cell {
    // a number of this width
    Any(u8),
    // a width, and the least value allowed
    Least(u8, u64),
    // a number above the one in the entry before, and above 0
    Rising(u8),
    // the same, and 1 in the first entry
    FromOne(u8),
    // a signed number, -1 or more
    Time(u8),
    Nothing,
}

fn cap(w: u8) -> usize
    ensures { result ≡ min w 8 }
{
    if 8 < w { 8 } else { w as usize }
}

fn width_of(cell: Cell) -> usize
    ensures { result ≡ width_of cell }
{
    match cell {
        Cell::Any(w) => cap(w),
        Cell::Least(w, _) => cap(w),
        Cell::Rising(w) => cap(w),
        Cell::FromOne(w) => cap(w),
        Cell::Time(w) => cap(w),
        Cell::Nothing => 0,
    }
}

// -1 in two's complement is the largest number of its width; below it the numbers from half on are negative.
fn is_time(w: u8, x: u64) -> bool
    ensures { result ≡ time_of w x }
{
    if w == 4 {
        return (x < 0x8000_0000) | (x == 0xffff_ffff);
    }
    (x < 0x8000_0000_0000_0000) | (x == 0xffff_ffff_ffff_ffff)
}

fn allowed(cell: Cell, last: u64, x: u64) -> bool
    ensures { result ≡ allowed_of cell last x }
{
    match cell {
        Cell::Any(_) => true,
        Cell::Least(_, n) => n <= x,
        Cell::Rising(_) => last < x,
        Cell::FromOne(_) => { if last == 0 { x == 1 } else { last < x } }
        Cell::Time(w) => is_time(w, x),
        Cell::Nothing => true,
    }
}

// The rising number of the entry so far.
fn last_of(cell: Cell, last: u64, x: u64) -> u64
    ensures { result ≡ last_of cell last x }
{
    match cell {
        Cell::Any(_) => last,
        Cell::Least(_, _) => last,
        Cell::Rising(_) => x,
        Cell::FromOne(_) => x,
        Cell::Time(_) => last,
        Cell::Nothing => last,
    }
}

// One entry, at `at`, behind one with this rising number.
fn entry(b: &[u8], at: usize, cells: [Cell; 4], last: u64) -> Result<(usize, u64), Refusal>
    ensures { result ≡ entry_of cells b.now at last }
{
    let mut p = at;
    let mut rising = last;
    let mut i = 0;
    while i < 4 {
        let cell = cells[i];
        let width = width_of(cell);
        let x = numbers::number_at(b, p, width)?;
        if !allowed(cell, rising, x) {
            return Err(Refusal::Value(p));
        }
        rising = last_of(cell, rising, x);
        p = p + width;
        i = i + 1;
    }
    Ok((p, rising))
}

// n entries from `at` on.
pub fn judge(b: &[u8], at: usize, n: u32, cells: [Cell; 4]) -> Result<(), Refusal>
    ensures { result ≡ entries_of n cells b.now at 0 }
{
    let mut left = n;
    let mut p = at;
    let mut last = 0;
    while 0 < left {
        let (next, reached) = entry(b, p, cells, last)?;
        p = next;
        last = reached;
        left = left - 1;
    }
    Ok(())
}
