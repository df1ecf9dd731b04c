#![tactic(auto, unfolding(numbers::specs::Field::when, numbers::specs::Field::field))]
// The tables of a track as they lie in the file: a row, a size, a chunk's place by its number. Nothing is refused here:
// what the file does not hold is 0.
ghost use Rattle.std.specs.Prelude.{◌≡◌};
ghost use Rattle.tables.specs.Tables.{size_at, offset_at};
ghost use Rattle.tables.specs.Rows.{pair_rows, group_rows, end_at, row_at};

// Where a table's entries lie, from their first byte on, and how many there are.
#[derive(Clone, Copy)]
pub struct Table {
    pub at: usize,
    pub count: u32,
}

// The table stsz. common is 0 where the sizes are listed.
#[derive(Clone, Copy)]
pub struct Sizes {
    pub at: usize,
    pub count: u32,
    pub common: u32,
}

// The chunks: wide by co64, else by stco.
#[derive(Clone, Copy)]
pub struct Chunks {
    pub at: usize,
    pub count: u32,
    pub wide: bool,
}

// The tables of a track.
#[derive(Clone, Copy)]
pub struct Track {
    pub stts: Table,
    pub ctts: Option<Table>,
    pub stsc: Table,
    pub stsz: Sizes,
    pub stco: Chunks,
    pub stss: Option<Table>,
}

// A table of runs: (count, value), or stsc's (first chunk, samples per chunk, description) for that many chunks.
#[derive(Clone, Copy)]
pub struct Rows {
    pub at: usize,
    pub count: u32,
    pub grouped: bool,
    pub chunks: u32,
}

// One run.
#[derive(Clone, Copy)]
pub struct Row {
    pub count: u64,
    pub value: u32,
}

// The rows of stts or ctts.
pub fn pairs(t: Table) -> Rows
    ensures { result ≡ pair_rows t }
{
    Rows {
        at: t.at,
        count: t.count,
        grouped: false,
        chunks: 0,
    }
}

// The rows of stsc, for that many chunks.
pub fn groups(t: Table, chunks: u32) -> Rows
    ensures { result ≡ group_rows t chunks }
{
    Rows {
        at: t.at,
        count: t.count,
        grouped: true,
        chunks,
    }
}

// The chunk after the last of stsc's entry i.
fn end_of(file: &[u8], rows: Rows, i: u32) -> u64
    ensures { result ≡ end_at file.now rows i }
{
    if (i as u64) + 1 < (rows.count as u64) {
        return words::four(file, rows.at, (i as usize) * 12 + 12) as u64;
    }
    (rows.chunks as u64) + 1
}

// The row of that number, counted from 0.
pub fn entry(file: &[u8], rows: Rows, i: u32) -> Row
    ensures { result ≡ row_at file.now rows i }
{
    if rows.grouped {
        let past = (i as usize) * 12;
        let first = words::four(file, rows.at, past) as u64;
        let per = words::four(file, rows.at, past + 4);
        let end = end_of(file, rows, i);
        if end <= first {
            return Row {
                count: 0,
                value: per,
            };
        }
        return Row {
            count: end - first,
            value: per,
        };
    }
    let past = (i as usize) * 8;
    let count = words::four(file, rows.at, past) as u64;
    let value = words::four(file, rows.at, past + 4);
    Row { count, value }
}

// The size of sample i, counted from 0.
pub fn size_at(file: &[u8], t: Sizes, i: u32) -> u32
    ensures { result ≡ size_at file.now t i }
{
    if t.common == 0 {
        return words::four(file, t.at, (i as usize) * 4);
    }
    t.common
}

// Where chunk i lies, counted from 0.
pub fn offset_at(file: &[u8], t: Chunks, i: u32) -> u64
    ensures { result ≡ offset_at file.now t i }
{
    if t.wide {
        return words::eight(file, t.at, (i as usize) * 8);
    }
    words::four(file, t.at, (i as usize) * 4) as u64
}
