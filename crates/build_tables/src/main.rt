#![tactic(auto)]
// Builds the tables of each list of samples that its standard input tells of, and prints their boxes.
// A list has its timescale and the count of its samples, in four bytes each, the highest byte of each number first; then
// for each sample its offset in 8 bytes, and in 4 each its size, its duration, its composition offset, signed, and
// whether it is sync, 0 or 1. A list that is not whole, or has more than 64 samples, ends the run.
// For each table there is a line, in the order in which the boxes stand in an stbl: its name and the bytes of the box as
// digits, or `refused` with the number and the detail, or `absent` where the track has no such box; then the whole stbl,
// with an stsd of no entry. An empty line ends the list. Words have a tab between them.
ghost use Rattle.std.specs.Prelude.{◌≡◌, ◌≤◌, length};

mod say;
mod table;

use samples::Sample;
use std::io::Read;

// How many samples a list has at most, and how many bytes each.
const MOST: u32 = 64;

const ROW: usize = 24;

// No time that is added up here comes near it.
const LATE: u64 = 0x8000_0000_0000_0000;

fn four(row: &[u8], at: usize) -> u32 {
    match numbers::read::<u32>(row, at) {
        Ok(n) => n,
        Err(_) => 0,
    }
}

fn eight(row: &[u8], at: usize) -> u64 {
    match numbers::read::<u64>(row, at) {
        Ok(n) => n,
        Err(_) => 0,
    }
}

fn widened(n: i32) -> i64 {
    n as i64
}

fn shift(row: &[u8], at: usize) -> i64 {
    match signed::read::<i32>(row, at) {
        Ok(n) => widened(n),
        Err(_) => 0,
    }
}

fn sample(row: &[u8], number: u32, time: u64) -> Sample {
    Sample {
        number,
        offset: eight(row, 0),
        size: four(row, 8),
        time,
        duration: four(row, 12),
        composition: shift(row, 16),
        sync: four(row, 20) != 0,
    }
}

// Row i, counted from 0, as the record of the sample with that number; and the time of the next one.
fn put_row(rows: &[u8], i: u32, number: u32, time: u64, records: &mut [u64]) -> u64 {
    let at = (i as usize) * ROW;
    let row = say::part(rows, at, ROW);
    let s = sample(row, number, time);
    samples::put(records, i as usize, s);
    if time < LATE {
        return time + (s.duration as u64);
    }
    time
}

fn put_rows(rows: &[u8], n: u32, records: &mut [u64]) {
    let mut time = 0;
    for i in 0..n {
        time = put_row(rows, i, i + 1, time, records);
    }
}

// The tables of a list, with room for the longest entries, and for them in a box.
fn print_tables(rt: &impl Print, timescale: u32, n: u32, rows: &[u8]) {
    let mut records = [0u64; 448];
    let mut entries = [0u8; 1024];
    let mut out = [0u8; 1024];
    put_rows(rows, n, &mut records);
    table::stts(rt, &records, n, &mut entries, &mut out);
    table::ctts(rt, &records, n, &mut entries, &mut out);
    table::stsc(rt, &records, n, timescale, &mut entries, &mut out);
    table::stsz(rt, &records, n, &mut entries, &mut out);
    table::offsets(rt, &records, n, timescale, &mut entries, &mut out);
    table::stss(rt, &records, n, &mut entries, &mut out);
}

// The whole stbl, with room for all of them, and the line that ends the list.
fn print_whole(rt: &impl Print, timescale: u32, n: u32, rows: &[u8]) {
    let mut records = [0u64; 448];
    let mut out = [0u8; 4096];
    put_rows(rows, n, &mut records);
    table::stbl(rt, &records, n, timescale, &mut out);
    say::text(rt, b"\n");
}

// The list at `at`, and where the next one begins; the end where this one is not whole.
fn print_list(rt: &impl Print, lists: &[u8], at: usize) -> usize {
    if lists.len() < at {
        return lists.len();
    }
    let room = lists.len() - at;
    if room < 8 {
        return lists.len();
    }
    let from = at + 8;
    let timescale = four(lists, at);
    let n = four(lists, at + 4);
    if MOST < n {
        return lists.len();
    }
    let length = (n as usize) * ROW;
    if room - 8 < length {
        return lists.len();
    }
    let end = from + length;
    print_tables(rt, timescale, n, &lists[from..end]);
    print_whole(rt, timescale, n, &lists[from..end]);
    end
}

// There are no more lists than bytes.
fn print_lists(rt: &impl Print, lists: &[u8]) {
    let mut at = 0;
    for _ in 0..lists.len() {
        if lists.len() <= at {
            return;
        }
        at = print_list(rt, lists, at);
    }
}

// How many bytes were read, until the room is full, the input ends or a read fails.
fn read_full(from: &mut impl Read, room: &mut [u8]) -> usize
    ensures { result ≤ length room.new }
{
    let mut done = 0;
    for _ in 0..u64::MAX {
        if done >= room.len() {
            break;
        }
        match from.read(&mut room[done..]) {
            Ok(0) | Err(_) => break,
            Ok(n) => done += n,
        }
    }
    done.min(room.len())
}

// The room for what is read.
fn room() -> [u8; 1048576]
    ensures { 1048576 ≡ length result }
{
    [0u8; 1048576]
}

// Up to 1 MiB: what lies behind that is not read.
fn main(rt: HostRuntime) {
    let mut space = room();
    let buffer: &mut [u8] = &mut space;
    let got = read_full(&mut rt.stdin(), buffer);
    print_lists(&rt, &buffer[..got]);
}
