#![tactic(auto, unfolding(numbers::specs::Field::when, numbers::specs::Field::field))]
// One box of a row: its header, the limits, whether it stands in its place, and the row of boxes in it.
ghost use Rattle.std.specs.Prelude.{◌≡◌, ◌&&◌, ◌+◌, ◌-◌, ◌≤◌, ◌<◌, length, Ok};
ghost use Rattle.numbers.specs.Field.{or_zero};
ghost use Rattle.places.specs.Places.{held_of};
ghost use Rattle.places.specs.Visit.{depth_limit, box_limit, limited, admitted, own_entry, start_of, row_of, visit_of, seen};

use crate::table::Inside;
use boxes::header::Header;
use numbers::Refusal;

pub mod kinds;
pub mod table;

// How deep boxes may stand, a box at the top at depth 1.
pub const DEPTH: usize = 10;

// How many headers may be read.
pub const BOXES: usize = 4096;

// A box as it is recorded.
#[derive(Clone, Copy)]
pub struct Node {
    pub start: usize,
    pub size: usize,
    pub kind: u32,
    // the parent's row in the tables and 1, or 0 at the top
    pub parent: usize,
    pub depth: usize,
    pub placed: bool,
}

// A row of boxes: where it begins, how many there may be, whether that is a count that must be met, and what stands above it.
#[derive(Clone, Copy)]
pub struct Row {
    pub at: usize,
    pub entries: usize,
    pub counted: bool,
    pub parent: usize,
    pub kind: u32,
    pub placed: bool,
}

// The limits, at a box that starts at `at`.
fn limit(
    found: Result<Header, Refusal>,
    at: usize,
    left: usize,
    count: usize,
) -> Result<Header, Refusal>
    ensures { result ≡ limited at left count found }
{
    if left == 0 {
        return Err(Refusal::Depth(at));
    }
    if BOXES <= count {
        return Err(Refusal::Limit(at));
    }
    found
}

// The first fault in file order, and at one position the smallest number.
fn admit(
    found: Result<Header, Refusal>,
    at: usize,
    left: usize,
    count: usize,
) -> Result<Header, Refusal>
    ensures { result ≡ admitted at left count found }
{
    match found {
        Ok(_) => limit(found, at, left, count),
        Err(q) => {
            if q.detail() == at {
                return found;
            }
            limit(found, at, left, count)
        }
    }
}

fn version_of(content: &[u8]) -> u16
    ensures { result ≡ or_zero 2 content.now 8 }
{
    let Ok(version) = numbers::read::<u16>(content, 8) else {
        return 0;
    };
    version
}

fn count_of(content: &[u8]) -> u32
    ensures { result ≡ or_zero 4 content.now 4 }
{
    let Ok(count) = numbers::read::<u32>(content, 4) else {
        return 0;
    };
    count
}

// Whether an entry of this type is one of ours: an mp4a of another version is QuickTime's.
fn own_entry(kind: u32, content: &[u8]) -> bool
    ensures { result ≡ own_entry kind content.now }
{
    if kind == kinds::MP4A {
        return version_of(content) == 0;
    }
    true
}

fn start_of(first: usize, content: &[u8], skip: usize) -> usize
    requires { first + length content.now ≤ 18446744073709551615 }
    ensures { result ≡ start_of first content.now skip }
{
    if content.len() < skip {
        return first + content.len();
    }
    first + skip
}

// The row of boxes in a box whose content begins at `first`.
fn row_of(first: usize, content: &[u8], me: usize, kind: u32, placed: bool) -> Row
    requires { first + length content.now ≤ 18446744073709551615 }
    ensures { result ≡ row_of first content.now me kind placed (held_of kind placed) }
{
    let held = table::held(kind, placed);
    match held {
        Inside::Nothing => Row {
            at: first,
            entries: 0,
            counted: true,
            parent: me,
            kind,
            placed,
        },
        Inside::Boxes(skip) => Row {
            at: start_of(first, content, skip),
            entries: content.len(),
            counted: false,
            parent: me,
            kind,
            placed,
        },
        Inside::Counted(skip) => Row {
            at: start_of(first, content, skip),
            entries: count_of(content) as usize,
            counted: true,
            parent: me,
            kind,
            placed,
        },
    }
}

// What is recorded of a box whose header was read, and the row of boxes in it.
fn look(
    s: &[u8],
    at: usize,
    left: usize,
    row: Row,
    count: usize,
    h: Header,
) -> Result<(Node, Row), Refusal>
    requires { (at + h.size ≤ length s.now) × (h.length ≤ h.size) × (count < box_limit) }
    ensures { result ≡ seen s.now at left row count (Ok h) }
{
    let first = at + h.length;
    let end = at + h.size;
    let content = &s[first..end];
    let placed = row.placed & table::belongs(row.kind, h.kind) & own_entry(h.kind, content);
    Ok((
        Node {
            start: at,
            size: h.size,
            kind: h.kind,
            parent: row.parent,
            depth: depth_of(left),
            placed,
        },
        row_of(first, content, count + 1, h.kind, placed),
    ))
}

// How deep a box stands that has `left` levels from itself down.
fn depth_of(left: usize) -> usize
    ensures { result ≡ depth_limit + 1 - left }
{
    if left <= DEPTH { DEPTH + 1 - left } else { 0 }
}

// The box at `at` in a row, where `left` levels are left and `count` boxes are recorded.
pub fn visit(
    s: &[u8],
    at: usize,
    left: usize,
    row: Row,
    count: usize,
) -> Result<(Node, Row), Refusal>
    ensures { result ≡ visit_of s.now at left row count }
{
    let top = row.parent == 0;
    let h = admit(boxes::header::read(s, at, top), at, left, count)?;
    look(s, at, left, row, count, h)
}
