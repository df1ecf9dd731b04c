#![tactic(auto)]
// Sums up the tracks that its standard input tells of, in rows of 24 bytes, the highest byte of each number first: the
// count of samples in 4 bytes, the duration in 8, the timescale, the width and the height in 4 each, both raw.
// For each row there is a line: `refused` with the number and the detail; or the frame rate, the width and the height, each
// as its whole part and the 65,536ths behind it, and the microseconds. Words have a tab between them. What is left behind
// the last whole row is not looked at.
ghost use Rattle.std.specs.Prelude.{◌≤◌, length};

use numbers::Refusal;
use std::io::Read;
use summary::Summary;

const ROW: usize = 24;

// What can not be written is left out.
fn text(rt: &impl Print, s: &[u8]) {
    let _ = rt.write_all(s);
}

fn number(rt: &impl Print, n: u64) {
    let _ = rt.print(n);
}

// Tested against both ends, since no other number has a whole part of 64 bits.
fn whole(x: f64) -> u64 {
    if x > -1.0 {
        if x < 18446744073709551616.0 {
            return std::num::truncating_f64_to_u64(x);
        }
    }
    0
}

fn print_figure(rt: &impl Print, x: f64) {
    let n = whole(x);
    let behind = x - std::num::nearest_u64_to_f64(n);
    number(rt, n);
    text(rt, b"\t");
    number(rt, whole(behind * 65536.0));
    text(rt, b"\t");
}

fn print_summary(rt: &impl Print, s: Summary) {
    print_figure(rt, s.frame_rate);
    print_figure(rt, s.width);
    print_figure(rt, s.height);
    number(rt, s.micros);
    text(rt, b"\n");
}

fn print_refusal(rt: &impl Print, q: Refusal) {
    text(rt, b"refused\t");
    number(rt, u64::from(q.code()));
    text(rt, b"\t");
    number(rt, q.detail() as u64);
    text(rt, b"\n");
}

fn four(row: &[u8], at: usize) -> u32 {
    match numbers::read::<u32>(row, at) {
        Ok(n) => n,
        Err(_) => 0,
    }
}

fn eight(row: &[u8], at: usize) -> u64 {
    match numbers::read::<u64>(row, at) {
        Ok(n) => n,
        Err(_) => 0,
    }
}

fn print_row(rt: &impl Print, row: &[u8]) {
    let told = summary::of(
        four(row, 0),
        eight(row, 4),
        four(row, 12),
        four(row, 16),
        four(row, 20),
    );
    match told {
        Ok(s) => print_summary(rt, s),
        Err(q) => print_refusal(rt, q),
    }
}

fn print_rows(rt: &impl Print, rows: &[u8]) {
    for row in rows.chunks_exact(ROW) {
        print_row(rt, row);
    }
}

// How many bytes were read, until the room is full, the input ends or a read fails.
fn read_full(from: &mut impl Read, room: &mut [u8]) -> usize
    ensures { result ≤ length room.new }
{
    let mut done = 0;
    for _ in 0..u64::MAX {
        if done >= room.len() {
            break;
        }
        match from.read(&mut room[done..]) {
            Ok(0) | Err(_) => break,
            Ok(n) => done += n,
        }
    }
    done.min(room.len())
}

fn main(rt: HostRuntime) {
    let mut buffer = [0u8; 65536];
    let got = read_full(&mut rt.stdin(), &mut buffer);
    print_rows(&rt, &buffer[..got]);
}
