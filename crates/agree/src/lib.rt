#![tactic(auto, unfolding(numbers::specs::Field::when, numbers::specs::Field::field))]
// Whether the tables of a track agree on how many samples there are, and have no number past the last sample or chunk.
// An entry is visited once, one of stsc twice; a size never. Nothing is refused here.
ghost use Rattle.std.specs.Prelude.{◌≡◌};
ghost use Rattle.tables.specs.Tables.{syncs};
ghost use Rattle.agree.specs.Agree.{times_count, shifts_count, chunks_count, within, heads, syncs_within, agree_of};

use seek::{Spot, Value};
use tables::{Table, Track};

// The bytes of an entry of stsc, and of one of stss.
const GROUP: u32 = 12;

const NUMBER: u32 = 4;

// Whether stts counts n samples in all: value n, counted from 0, is one too many.
fn times_count(file: &[u8], stts: Table, n: u32) -> bool
    ensures { result ≡ times_count file.now stts n }
{
    match seek::value_at(file, tables::pairs(stts), n) {
        Value::At { value: _, sum: _ } => false,
        Value::Few(all) => all == n,
    }
}

// Whether ctts does, where there is one.
fn shifts_count(file: &[u8], ctts: Option<Table>, n: u32) -> bool
    ensures { result ≡ shifts_count file.now ctts n }
{
    let Some(t) = ctts else {
        return true;
    };
    times_count(file, t, n)
}

// Whether so many chunks have n samples in all, by stsc.
fn chunks_count(file: &[u8], stsc: Table, chunks: u32, n: u32) -> bool
    ensures { result ≡ chunks_count file.now stsc chunks n }
{
    match seek::chunk_at(file, tables::groups(stsc, chunks), n) {
        Spot::At {
            chunk: _,
            within: _,
        } => false,
        Spot::Few(all) => all == n,
    }
}

// Whether no entry begins with a number above `most`, where an entry takes so many bytes.
fn heads_within(file: &[u8], t: Table, wide: u32, most: u32) -> bool
    ensures { result ≡ within most (heads file.now t wide) }
{
    let mut i = 0;
    while i < t.count {
        let n = words::four(file, t.at, (i as usize) * (wide as usize));
        if most < n {
            return false;
        }
        i += 1;
    }
    true
}

// Whether stss lists no number above `most`.
fn syncs_within(file: &[u8], stss: Option<Table>, most: u32) -> bool
    ensures { result ≡ syncs_within most (syncs file.now stss) }
{
    let Some(t) = stss else {
        return true;
    };
    heads_within(file, t, NUMBER, most)
}

// Whether the tables of a track agree.
pub fn tables(file: &[u8], track: Track) -> bool
    ensures { result ≡ agree_of file.now track }
{
    let sizes = track.stsz;
    let offsets = track.stco;
    let stts = track.stts;
    let ctts = track.ctts;
    let stsc = track.stsc;
    let stss = track.stss;
    let samples = sizes.count;
    let chunks = offsets.count;
    let timed = times_count(file, stts, samples);
    let shifted = shifts_count(file, ctts, samples);
    let placed = chunks_count(file, stsc, chunks, samples);
    let chunked = heads_within(file, stsc, GROUP, chunks);
    let synced = syncs_within(file, stss, samples);
    timed & shifted & placed & chunked & synced
}
