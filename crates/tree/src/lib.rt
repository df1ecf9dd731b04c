#![tactic(auto, unfolding(numbers::specs::Field::when, numbers::specs::Field::field))]
// The tree of a file's boxes, as tables: each header is read once, in file order, and recorded in one row of every table.
ghost use Rattle.std.specs.Prelude.{◌≡◌, ◌<◌};
ghost use Rattle.places.specs.Visit.{box_limit};
ghost use Rattle.tree.specs.Walk.{walk_of};
ghost use Rattle.tree.specs.Tables.{bit, tables, put, out, recorded, scan_of};

use numbers::Refusal;
use places::{Node, Row};

// The largest file, in bytes.
pub const FILE_LIMIT: usize = 1_073_741_824;

// How many boxes were recorded: all of them, or those before the first fault.
#[derive(Clone, Copy)]
pub enum Scanned {
    Whole(usize),
    Fault(usize, Refusal),
}

fn bit_of(t: bool) -> usize
    ensures { result ≡ bit t }
{
    if t { 1 } else { 0 }
}

// A box in row i of every table.
fn record_at(
    i: usize,
    node: Node,
    starts: &mut [usize; 4096],
    sizes: &mut [usize; 4096],
    kinds: &mut [usize; 4096],
    parents: &mut [usize; 4096],
    depths: &mut [usize; 4096],
    placed: &mut [usize; 4096],
)
    requires { i < box_limit }
    ensures { tables starts.new sizes.new kinds.new parents.new depths.new placed.new
        ≡ put (tables starts.old sizes.old kinds.old parents.old depths.old placed.old) i node }
{
    starts[i] = node.start;
    sizes[i] = node.size;
    kinds[i] = node.kind as usize;
    parents[i] = node.parent;
    depths[i] = node.depth;
    placed[i] = bit_of(node.placed);
}

// The boxes of a row and those in them. The levels that are left fall with each call.
fn walk(
    s: &[u8],
    row: Row,
    left: usize,
    count: usize,
    starts: &mut [usize; 4096],
    sizes: &mut [usize; 4096],
    kinds: &mut [usize; 4096],
    parents: &mut [usize; 4096],
    depths: &mut [usize; 4096],
    placed: &mut [usize; 4096],
) -> Scanned
    ensures { out result (tables starts.new sizes.new kinds.new parents.new depths.new placed.new)
        ≡ recorded (tables starts.old sizes.old kinds.old parents.old depths.old placed.old) count (walk_of left s.now row count) }
{
    let mut at = row.at;
    let mut entries = row.entries;
    let mut n = count;
    while 0 < entries {
        if row.counted | (at < s.len()) {
            let seen = places::visit(s, at, left, row, n);
            match seen {
                Err(q) => {
                    return Scanned::Fault(n, q);
                }
                Ok((node, inner)) => {
                    record_at(n, node, starts, sizes, kinds, parents, depths, placed);
                    let end = node.start + node.size;
                    let within = walk(
                        &s[..end],
                        inner,
                        left - 1,
                        n + 1,
                        starts,
                        sizes,
                        kinds,
                        parents,
                        depths,
                        placed,
                    );
                    match within {
                        Scanned::Fault(m, q) => {
                            return Scanned::Fault(m, q);
                        }
                        Scanned::Whole(m) => {
                            n = m;
                            at = end;
                            entries = entries - 1;
                        }
                    }
                }
            }
        } else {
            return Scanned::Whole(n);
        }
    }
    Scanned::Whole(n)
}

// The boxes of a file up to the first fault, in the rows of the lent tables from the first on; other rows stay.
// What lies before a fault is told with it, since the contents of those boxes are judged first.
pub fn scan(
    s: &[u8],
    starts: &mut [usize; 4096],
    sizes: &mut [usize; 4096],
    kinds: &mut [usize; 4096],
    parents: &mut [usize; 4096],
    depths: &mut [usize; 4096],
    placed: &mut [usize; 4096],
) -> Scanned
    ensures { out result (tables starts.new sizes.new kinds.new parents.new depths.new placed.new)
        ≡ scan_of s.now (tables starts.old sizes.old kinds.old parents.old depths.old placed.old) }
{
    if FILE_LIMIT < s.len() {
        return Scanned::Fault(0, Refusal::Limit(0));
    }
    let top = Row {
        at: 0,
        entries: s.len(),
        counted: false,
        parent: 0,
        kind: places::table::FILE,
        placed: true,
    };
    walk(
        s,
        top,
        places::DEPTH,
        0,
        starts,
        sizes,
        kinds,
        parents,
        depths,
        placed,
    )
}
