#![tactic(auto)]
// Prints the box tree of each file that an argument names: a line for each box with its depth, type, start, size and
// whether it stands in its place; then how many there are, or the first fault behind them.
ghost use Rattle.std.specs.Prelude.{◌≤◌, length};

use std::env::{Env, FillError};
use std::fs::File;
use std::io::{ErrorKind, Read};
use std::{fs, io};
use tree::Scanned;

// What can not be written is left out.
fn text(rt: &impl Print, s: &[u8]) {
    let _ = rt.write_all(s);
}

// A type is printed as its letters; a byte that is no printable ASCII as '?'.
fn letter(b: u8) -> u8 {
    if (b < 0x20) | (0x7e < b) { b'?' } else { b }
}

fn print_kind(rt: &impl Print, kind: u32) {
    let mut letters = types::letters::of_number(kind);
    letters[0] = letter(letters[0]);
    letters[1] = letter(letters[1]);
    letters[2] = letter(letters[2]);
    letters[3] = letter(letters[3]);
    text(rt, &letters);
}

fn print_number(rt: &impl Print, n: usize) {
    let _ = rt.print(n);
}

fn print_box(rt: &impl Print, depth: usize, kind: usize, start: usize, size: usize, placed: usize) {
    print_number(rt, depth);
    text(rt, b" ");
    print_kind(rt, (kind % 0x1_0000_0000) as u32);
    text(rt, b" ");
    print_number(rt, start);
    text(rt, b" ");
    print_number(rt, size);
    if placed == 1 {
        text(rt, b" placed\n");
    } else {
        text(rt, b" elsewhere\n");
    }
}

fn print_boxes(
    rt: &impl Print,
    n: usize,
    depths: &[usize; 4096],
    kinds: &[usize; 4096],
    starts: &[usize; 4096],
    sizes: &[usize; 4096],
    placed: &[usize; 4096],
) {
    for i in 0..n.min(4096) {
        print_box(rt, depths[i], kinds[i], starts[i], sizes[i], placed[i]);
    }
}

fn print_tree(rt: &impl Print, s: &[u8]) {
    let mut starts = [0usize; 4096];
    let mut sizes = [0usize; 4096];
    let mut kinds = [0usize; 4096];
    let mut parents = [0usize; 4096];
    let mut depths = [0usize; 4096];
    let mut placed = [0usize; 4096];
    let scanned = tree::scan(
        s,
        &mut starts,
        &mut sizes,
        &mut kinds,
        &mut parents,
        &mut depths,
        &mut placed,
    );
    match scanned {
        Scanned::Whole(n) => {
            print_boxes(rt, n, &depths, &kinds, &starts, &sizes, &placed);
            print_number(rt, n);
            text(rt, b" boxes, whole\n");
        }
        Scanned::Fault(n, refusal) => {
            print_boxes(rt, n, &depths, &kinds, &starts, &sizes, &placed);
            print_number(rt, n);
            text(rt, b" boxes, then refusal ");
            print_number(rt, refusal.code() as usize);
            text(rt, b" at ");
            print_number(rt, refusal.detail());
            text(rt, b"\n");
        }
    }
}

// How many bytes were read, until the room is full, the input ends or a read fails.
fn read_full(from: &mut impl Read, room: &mut [u8]) -> usize
    ensures { result ≤ length room.new }
{
    let mut done = 0;
    for _ in 0..u64::MAX {
        if done >= room.len() {
            break;
        }
        match from.read(&mut room[done..]) {
            Ok(0) | Err(_) => break,
            Ok(n) => done += n,
        }
    }
    done.min(room.len())
}

// Files of up to 128 KiB: what lies behind that is not read.
fn print_file(rt: &impl Print, file: &mut impl Read) {
    let mut buffer = [0u8; 131072];
    let got = read_full(file, &mut buffer);
    print_tree(rt, &buffer[..got]);
}

// The system's words for why a call failed, without the number that stands behind them.
fn words(why: &str) -> &str {
    match why.split_once(" (os error ") {
        Some((words, _)) => words,
        None => why,
    }
}

// A line of standard error: what failed, and why.
fn fail(rt: &HostRuntime, what: &[u8], why: &str) {
    let errors = rt.stderr();
    text(&errors, what);
    text(&errors, b": ");
    let _ = errors.println(why);
}

// Opens the file of that name. A name that is no UTF-8 can not be opened.
fn open_read(rt: &HostRuntime, name: &[u8]) -> io::Result<File> {
    match str::from_utf8(name) {
        Ok(path) => fs::open(rt, path),
        Err(_) => Err(io::Error::from(ErrorKind::InvalidFilename)),
    }
}

fn print_argument(rt: &HostRuntime, i: usize) {
    let mut path = [0u8; 4096];
    let Ok(length) = rt.arg(i, &mut path) else {
        fail(rt, b"argument", "File name too long");
        return;
    };
    match open_read(rt, &path[..length]) {
        Ok(mut file) => {
            text(rt, &path[..length]);
            text(rt, b"\n");
            print_file(rt, &mut file);
        }
        Err(e) => match format!(in rt.alloc(); "{e}") {
            Ok(why) => fail(rt, &path[..length], words(why.as_str())),
            Err(_) => fail(rt, &path[..length], "it can not be opened"),
        },
    }
}

// How many arguments there are, the program's own name among them.
fn arg_count(rt: &impl Env) -> usize {
    for i in 0..usize::MAX {
        if let Err(FillError::NotPresent) = rt.arg(i, &mut [0u8; 0]) {
            return i;
        }
    }
    usize::MAX
}

fn main(rt: HostRuntime) {
    for i in 1..arg_count(&rt) {
        print_argument(&rt, i);
    }
}
