#![tactic(auto)]
// Does work that can be counted, with the tables of one stbl box, which it reads from its standard input. Each argument
// is one round: `list` lists all samples into a lent buffer, `look` looks each of them up, `sync` asks of each whether it
// is sync. Last it writes a number that all answers go into, so that none of them can be left out.
ghost use Rattle.std.specs.Prelude.{◌≡◌, ◌≤◌, length};

use std::env::{Env, FillError};
use std::io::Read;
use tables::Track;

// The most samples of a track.
const SAMPLES: u32 = 65536;

fn plus(a: u64, b: u64) -> u64 {
    std::num::wrapping_add_u64(a, b)
}

// All numbers of the records.
fn mixed(out: &[u64; 458752]) -> u64 {
    let mut mix: u64 = 0;
    for n in out {
        mix = plus(mix, *n);
    }
    mix
}

fn list(file: &[u8], track: Track, out: &mut [u64; 458752]) -> u64 {
    match lists::list(file, track, out) {
        Ok(n) => n as u64,
        Err(q) => u64::from(q.code()),
    }
}

fn negative(c: i64) -> u64 {
    if c < 0 {
        return 1;
    }
    0
}

fn look(file: &[u8], track: Track) -> u64 {
    let mut mix: u64 = 0;
    for number in 1..=SAMPLES {
        let Ok(s) = locate::sample(file, track, number) else {
            return mix;
        };
        mix = plus(mix, s.offset);
        mix = plus(mix, s.time);
        mix = plus(mix, s.size as u64);
        mix = plus(mix, s.duration as u64);
        mix = plus(mix, negative(s.composition));
    }
    mix
}

fn sync(file: &[u8], track: Track) -> u64 {
    let mut many: u64 = 0;
    for number in 1..=SAMPLES {
        let Ok(yes) = lookup::is_sync(file, track, number) else {
            return many;
        };
        many = plus(many, marked(number, yes));
    }
    many
}

fn marked(number: u32, yes: bool) -> u64 {
    if yes {
        return number as u64;
    }
    0
}

// By the second letter of the argument.
fn round(file: &[u8], track: Track, letter: u8, out: &mut [u64; 458752]) -> u64 {
    match letter {
        b'i' => list(file, track, out),
        b'o' => look(file, track),
        b'y' => sync(file, track),
        _ => 0,
    }
}

fn letter_of(rt: &impl Env, i: usize) -> u8 {
    let mut word = [0u8; 4096];
    let _ = rt.arg(i, &mut word);
    word[1]
}

// How many arguments there are, the program's own name among them.
fn arg_count(rt: &impl Env) -> usize {
    for i in 0..usize::MAX {
        if let Err(FillError::NotPresent) = rt.arg(i, &mut [0u8; 0]) {
            return i;
        }
    }
    usize::MAX
}

// What can not be written is left out.
fn text(rt: &impl Print, s: &[u8]) {
    let _ = rt.write_all(s);
}

fn rounds<R: Env + Print>(rt: &R, file: &[u8], track: Track) {
    let mut out = [0u64; 458752];
    let mut mix: u64 = 0;
    for i in 1..arg_count(rt) {
        mix = plus(mix, round(file, track, letter_of(rt, i), &mut out));
    }
    let _ = rt.print(plus(mix, mixed(&out)));
    text(rt, b"\n");
}

fn measure<R: Env + Print>(rt: &R, stbl: &[u8]) {
    let Ok(boxes) = tableboxes::find(stbl) else {
        text(rt, b"no stbl\n");
        return;
    };
    let Ok(track) = stbl::track(stbl, boxes) else {
        text(rt, b"no track\n");
        return;
    };
    rounds(rt, stbl, track);
}

// How many bytes were read, until the room is full, the input ends or a read fails.
fn read_full(from: &mut impl Read, room: &mut [u8]) -> usize
    ensures { result ≤ length room.new }
{
    let mut done = 0;
    for _ in 0..u64::MAX {
        if done >= room.len() {
            break;
        }
        match from.read(&mut room[done..]) {
            Ok(0) | Err(_) => break,
            Ok(n) => done += n,
        }
    }
    done.min(room.len())
}

// The room for what is read. Its length is said once, since a program that counts so many elements needs a law for it.
fn room() -> [u8; 2621440]
    ensures { 2621440 ≡ length result }
{
    [0u8; 2621440]
}

fn main(rt: HostRuntime) {
    let mut space = room();
    let buffer: &mut [u8] = &mut space;
    let got = read_full(&mut rt.stdin(), buffer);
    measure(&rt, &buffer[..got]);
}
