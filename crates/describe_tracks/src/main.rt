#![tactic(auto)]
// Tells what every getter of a track answers, for each trak of the packs that the arguments name. A pack is a row of
// entries: a length in four bytes, the highest first, and as many bytes, a trak from its header on. For each there is a line
// `trak` with that length, then a line for each getter: its name, what it is asked for besides, and the answer, or
// `refused` with the number and the detail. Words have a tab between them; parts are an x and their digits, or, of boxes, how
// many bytes they have.
ghost use Rattle.std.specs.Prelude.{◌≡◌, ◌≤◌, length};

mod amount;
mod place;
mod plain;
mod say;
mod sound;
mod video;

use packs::Item;
use std::env::{Env, FillError};
use std::fs::File;
use std::io::{ErrorKind, Read};
use std::{fs, io};

fn tell_trak(rt: &impl Print, trak: &[u8]) {
    say::count(rt, b"trak", trak.len() as u64);
    place::tell(rt, trak);
    plain::tell(rt, trak);
    video::tell(rt, trak);
    sound::tell(rt, trak);
    amount::tell(rt, trak);
}

// The entry at `at`, and where the next one begins; the pack's end where this one is not whole.
fn tell_entry(rt: &impl Print, pack: &[u8], at: usize) -> usize {
    match packs::item_at(pack, at) {
        Item::End => pack.len(),
        Item::Cut => {
            say::text(rt, b"cut\n");
            pack.len()
        }
        Item::Is(from, length) => {
            tell_trak(rt, parts::part(pack, from, length));
            from + length
        }
    }
}

// No pack has more entries than bytes.
fn tell_pack(rt: &impl Print, pack: &[u8]) {
    let mut at = 0;
    for _ in 0..pack.len() {
        if pack.len() <= at {
            return;
        }
        at = tell_entry(rt, pack, at);
    }
}

// How many arguments there are, the program's own name among them.
fn arg_count(rt: &impl Env) -> usize {
    for i in 0..usize::MAX {
        if let Err(FillError::NotPresent) = rt.arg(i, &mut [0u8; 0]) {
            return i;
        }
    }
    usize::MAX
}

// Opens the file of that name. A name that is no UTF-8 can not be opened.
fn open_read(rt: &HostRuntime, name: &[u8]) -> io::Result<File> {
    match str::from_utf8(name) {
        Ok(path) => fs::open(rt, path),
        Err(_) => Err(io::Error::from(ErrorKind::InvalidFilename)),
    }
}

// How many bytes were read, until the room is full, the input ends or a read fails.
fn read_full(from: &mut impl Read, room: &mut [u8]) -> usize
    ensures { result ≤ length room.new }
{
    let mut done = 0;
    for _ in 0..u64::MAX {
        if done >= room.len() {
            break;
        }
        match from.read(&mut room[done..]) {
            Ok(0) | Err(_) => break,
            Ok(n) => done += n,
        }
    }
    done.min(room.len())
}

// The system's words for why a call failed, without the number that stands behind them.
fn words(why: &str) -> &str {
    match why.split_once(" (os error ") {
        Some((words, _)) => words,
        None => why,
    }
}

// A line of standard error: what failed, and why.
fn fail(rt: &HostRuntime, what: &[u8], why: &str) {
    let err = rt.stderr();
    say::text(&err, what);
    say::text(&err, b": ");
    let _ = err.println(why);
}

// The room for what is read.
fn room() -> [u8; 1048576]
    ensures { 1048576 ≡ length result }
{
    [0u8; 1048576]
}

// Packs of up to 1 MiB: what lies behind that is not read.
fn tell_file(rt: &HostRuntime, file: &mut File) {
    let mut space = room();
    let buffer: &mut [u8] = &mut space;
    let got = read_full(file, buffer);
    tell_pack(rt, &buffer[..got]);
}

fn tell_argument(rt: &HostRuntime, i: usize) {
    let mut path = [0u8; 4096];
    let Ok(length) = rt.arg(i, &mut path) else {
        fail(rt, b"argument", "File name too long");
        return;
    };
    match open_read(rt, &path[..length]) {
        Ok(mut file) => {
            say::text(rt, &path[..length]);
            say::text(rt, b"\n");
            tell_file(rt, &mut file);
        }
        Err(e) => match format!(in rt.alloc(); "{e}") {
            Ok(why) => fail(rt, &path[..length], words(why.as_str())),
            Err(_) => fail(rt, &path[..length], "it can not be opened"),
        },
    }
}

fn main(rt: HostRuntime) {
    for i in 1..arg_count(&rt) {
        tell_argument(&rt, i);
    }
}
