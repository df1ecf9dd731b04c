#![tactic(auto, unfolding(numbers::specs::Field::when, numbers::specs::Field::field))]
// The sample table of a track (ISO/IEC 14496-12, 8.5.1), from its samples: a box around the sample descriptions, which are
// handed in, and the tables. The samples lie in a buffer as records of seven numbers (samples::put).
ghost use Rattle.std.specs.Prelude.{◌≡◌, ◌+◌, ◌*◌, ◌/◌, ◌^◌, ◌≤◌, ◌<◌, [], ◌∷◌, length};
ghost use Rattle.std.proofs.lemmas.List.Edits.{sets};
ghost use Rattle.columns.specs.Entries.{words_of};
ghost use Rattle.put.specs.Put.{wrote};
ghost use Rattle.sampletable.specs.SampleTable.{wide_in, list_of, per_of, kind_of, is_there, first_of, second_of, head_of, table_of, tables_of, stbl_of, fits_in, stbl_in};
ghost use Rattle.sampletable.specs.Inside.{entries_in, told_by, behind_of, before_of, Ready, Puts, HasRoom};

use columns::Rule;
use numbers::Refusal;
use places::kinds;

// A table of a track, in the order in which they are written; Offsets is stco or co64.
#[derive(Clone, Copy)]
pub enum Table {
    Stts,
    Ctts,
    Stsc,
    Stsz,
    Offsets,
    Stss,
}

// The entries of a table, by its builder.
fn entries(
    table: Table,
    records: &[u64],
    n: usize,
    timescale: u32,
    out: &mut [u8],
) -> Result<usize, Refusal>
    ensures { wrote result out.new ≡ entries_in table timescale records.now n out.old }
{
    match table {
        Table::Stts => builder::stts::entries(records, n, out),
        Table::Ctts => builder::ctts::entries(records, n, out),
        Table::Stsc => chunking_stsc::entries(records, n, timescale, out),
        Table::Stsz => builder_stsz::entries(records, n, out),
        Table::Offsets => chunking_offsets::entries(records, n, timescale, out),
        Table::Stss => builder_stss::entries(records, n, out),
    }
}

// The length that a builder tells, whether it has room or not.
fn told(answer: Result<usize, Refusal>) -> usize
    ensures { result ≡ told_by answer }
{
    match answer {
        Ok(n) => n,
        Err(q) => q.detail(),
    }
}

// The bytes of a table's entries, asked for by a buffer that has room for none.
fn listed(table: Table, records: &[u64], n: usize, timescale: u32) -> usize
    requires { Ready timescale records.now n }
    ensures { result ≡ length (list_of table timescale records.now n) * 4 }
{
    let mut none = [0u8; 1];
    let answer = entries(table, records, n, timescale, &mut none);
    told(answer)
}

// Whether the table is written.
fn there(table: Table, records: &[u64], n: usize) -> bool
    ensures { result ≡ is_there table records.now n }
{
    match table {
        Table::Stts => true,
        Table::Ctts => !columns::all_right(records, n, columns::COMPOSITION, Rule::Zero),
        Table::Stsc => true,
        Table::Stsz => true,
        Table::Offsets => true,
        Table::Stss => n != 0,
    }
}

// The box's type.
fn kind(table: Table, wide: bool) -> u32
    ensures { result ≡ kind_of table wide }
{
    match table {
        Table::Stts => kinds::STTS,
        Table::Ctts => kinds::CTTS,
        Table::Stsc => kinds::STSC,
        Table::Stsz => kinds::STSZ,
        Table::Offsets => {
            if wide {
                return kinds::CO64;
            }
            kinds::STCO
        }
        Table::Stss => kinds::STSS,
    }
}

// The number behind version and flags, of a table whose entries are so many numbers.
fn first(table: Table, wide: bool, records: &[u64], n: usize, many: u32) -> u32
    ensures { result ≡ first_of table wide records.now n many }
{
    match table {
        Table::Stts => many / 2,
        Table::Ctts => many / 2,
        Table::Stsc => many / 3,
        Table::Stsz => builder_stsz::common(records, n),
        Table::Offsets => {
            if wide {
                return many / 2;
            }
            many
        }
        Table::Stss => many,
    }
}

// The bytes between that number and the entries.
fn behind(table: Table) -> usize
    ensures { result ≡ behind_of table }
{
    match table {
        Table::Stts => 0,
        Table::Ctts => 0,
        Table::Stsc => 0,
        Table::Stsz => 4,
        Table::Offsets => 0,
        Table::Stss => 0,
    }
}

// The bytes of a table's box; 0 where it is not written.
fn size(table: Table, records: &[u64], n: usize, timescale: u32) -> usize
    requires { Ready timescale records.now n }
    ensures { result ≡ length (table_of table timescale records.now n) * 4 }
{
    if !there(table, records, n) {
        return 0;
    }
    let bytes = listed(table, records, n, timescale);
    let more = behind(table);
    16 + more + bytes
}

// The first 16 bytes of a table's box: its size, its type, version 0 and no flags, and a number.
fn put_four(out: &mut [u8], at: usize, size: u32, kind: u32, first: u32)
    requires { at + 16 ≤ length out.old }
    ensures { out.new ≡ sets out.old at (words_of (size ∷ kind ∷ 0 ∷ first ∷ [])) }
{
    let _ = put::write::<u32>(out, at, size);
    let _ = put::write::<u32>(out, at + 4, kind);
    let _ = put::write::<u32>(out, at + 8, 0);
    let _ = put::write::<u32>(out, at + 12, first);
}

// What comes between the first number and the entries; and the place after it.
fn put_second(table: Table, out: &mut [u8], at: usize, n: u32) -> usize
    requires { HasRoom (second_of table n) out.old at }
    ensures { Puts (second_of table n) out.old at out.new result }
{
    if behind(table) == 0 {
        return at;
    }
    let _ = put::write::<u32>(out, at, n);
    at + 4
}

// What a table's box has before its entries, of that many bytes; and the place after it.
fn put_before(
    table: Table,
    records: &[u64],
    n: usize,
    timescale: u32,
    bytes: usize,
    out: &mut [u8],
    at: usize,
) -> usize
    requires { (n < 2 ^ 32) × (bytes ≡ length (list_of table timescale records.now n) * 4) × (at + (20 + bytes) < 2 ^ 33) × (16 + behind_of table + bytes < 2 ^ 32) × (at + (16 + behind_of table) ≤ length out.old) × (at + (16 + behind_of table) < 2 ^ 32) }
    ensures { Puts (before_of table timescale records.now n) out.old at out.new result }
{
    let wide = chunking_offsets::wide(records, n, timescale);
    let more = behind(table);
    let total = (16 + more + bytes) as u32;
    let many = (bytes / 4) as u32;
    let number = first(table, wide, records, n, many);
    put_four(out, at, total, kind(table, wide), number);
    put_second(table, out, at + 16, n as u32)
}

// The box of a table, where it is written; and the place after it.
fn put_table(
    table: Table,
    records: &[u64],
    n: usize,
    timescale: u32,
    out: &mut [u8],
    at: usize,
) -> usize
    requires { (Ready timescale records.now n) × HasRoom (table_of table timescale records.now n) out.old at }
    ensures { Puts (table_of table timescale records.now n) out.old at out.new result }
{
    if !there(table, records, n) {
        return at;
    }
    let bytes = listed(table, records, n, timescale);
    let begin = put_before(table, records, n, timescale, bytes, out, at);
    let _ = entries(table, records, n, timescale, &mut out[begin..]);
    begin + bytes
}

// All tables, one behind the other.
fn put_tables(records: &[u64], n: usize, timescale: u32, out: &mut [u8], at: usize)
    requires { (Ready timescale records.now n) × HasRoom (tables_of timescale records.now n) out.old at }
    ensures { out.new ≡ sets out.old at (words_of (tables_of timescale records.now n)) }
{
    let second = put_table(Table::Stts, records, n, timescale, out, at);
    let third = put_table(Table::Ctts, records, n, timescale, out, second);
    let fourth = put_table(Table::Stsc, records, n, timescale, out, third);
    let fifth = put_table(Table::Stsz, records, n, timescale, out, fourth);
    let sixth = put_table(Table::Offsets, records, n, timescale, out, fifth);
    put_table(Table::Stss, records, n, timescale, out, sixth);
}

// The bytes of all tables.
fn needed(records: &[u64], n: usize, timescale: u32) -> usize
    requires { Ready timescale records.now n }
    ensures { result ≡ length (tables_of timescale records.now n) * 4 }
{
    let stts = size(Table::Stts, records, n, timescale);
    let ctts = size(Table::Ctts, records, n, timescale);
    let stsc = size(Table::Stsc, records, n, timescale);
    let stsz = size(Table::Stsz, records, n, timescale);
    let offsets = size(Table::Offsets, records, n, timescale);
    let stss = size(Table::Stss, records, n, timescale);
    stts + ctts + stsc + stsz + offsets + stss
}

// The whole box, of that size, where it has room.
fn put_all(records: &[u64], n: usize, timescale: u32, stsd: &[u8], total: usize, out: &mut [u8])
    requires { (Ready timescale records.now n) × (total ≡ 8 + length stsd.now + length (tables_of timescale records.now n) * 4) × (total ≤ length out.old) × (total < 2 ^ 32) }
    ensures { out.new ≡ sets out.old 0 (stbl_of timescale records.now n stsd.now) }
{
    let _ = put::write::<u32>(out, 0, total as u32);
    let _ = put::write::<u32>(out, 4, kinds::STBL);
    let _ = put::part(out, 8, stsd);
    put_tables(records, n, timescale, out, 8 + stsd.len());
}

// Whether the numbers of the first n records fit their fields.
fn fit(records: &[u64], n: usize) -> bool
    ensures { result ≡ fits_in records.now n }
{
    if !columns::all_right(records, n, columns::SIZE, Rule::Narrow) {
        return false;
    }
    if !columns::all_right(records, n, columns::DURATION, Rule::Narrow) {
        return false;
    }
    columns::all_right(records, n, columns::COMPOSITION, Rule::Signed)
}

// The sample table for the first n records, around the sample descriptions' box, and its length.
pub fn write(
    records: &[u64],
    n: usize,
    timescale: u32,
    stsd: &[u8],
    out: &mut [u8],
) -> Result<usize, Refusal>
    ensures { wrote result out.new ≡ stbl_in timescale records.now n stsd.now out.old }
{
    if timescale == 0 {
        return Err(Refusal::Value(0));
    }
    if !columns::has(records, n) {
        return Err(Refusal::NoSample(n));
    }
    if columns::MANY < n {
        return Err(Refusal::Unwritable);
    }
    if !fit(records, n) {
        return Err(Refusal::Unwritable);
    }
    let tables = needed(records, n, timescale);
    if 0xffff_ffff < tables {
        return Err(Refusal::Unwritable);
    }
    if 0xffff_ffff - tables < stsd.len() {
        return Err(Refusal::Unwritable);
    }
    let inside = stsd.len() + tables;
    if 0xffff_ffff - 8 < inside {
        return Err(Refusal::Unwritable);
    }
    let total = 8 + inside;
    if out.len() < total {
        return Err(Refusal::TooSmall(total));
    }
    put_all(records, n, timescale, stsd, total, out);
    Ok(total)
}
