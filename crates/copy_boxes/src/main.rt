#![tactic(auto)]
// Reads every box of the packs that the arguments name, writes it again, and tells both: a line for each box.
// A pack is a row of entries: a length in four bytes, the highest first, and as many bytes, a box from its header on.
// A line has the box's type, then `unknown` where no reader here is for it; or `refused` with the number and the
// position; or the fields in their order, each entry of a table in brackets, bytes as an x and their digits, whether the
// box is canonical (its own size and fields; its children are boxes of their own), and then `same` where the box that
// is written is the one that was read, else `wrote` and its bytes, or `unwritten` with the number and the detail.
ghost use Rattle.std.specs.Prelude.{◌≡◌, ◌≤◌, length};

mod edit;
mod event;
mod hold;
mod plain;
mod run;
mod say;
mod table;
mod tail;

use packs::Item;
use std::env::{Env, FillError};
use std::fs::File;
use std::io::{ErrorKind, Read};
use std::{fs, io};

// A type is printed as its letters; a byte that is no printable ASCII as '?'.
fn letter(b: u8) -> u8 {
    if (b < 0x20) | (0x7e < b) { b'?' } else { b }
}

fn print_kind(rt: &impl Print, kind: u32) {
    let mut letters = types::letters::of_number(kind);
    letters[0] = letter(letters[0]);
    letters[1] = letter(letters[1]);
    letters[2] = letter(letters[2]);
    letters[3] = letter(letters[3]);
    say::text(rt, &letters);
}

// Whether a reader was found.
fn copy_known(rt: &impl Print, kind: u32, part: &[u8], out: &mut [u8]) -> bool {
    if plain::copy(rt, kind, part, out) {
        return true;
    }
    if table::copy(rt, kind, part, out) {
        return true;
    }
    if edit::copy(rt, kind, part, out) {
        return true;
    }
    if run::copy(rt, kind, part, out) {
        return true;
    }
    if event::copy(rt, kind, part, out) {
        return true;
    }
    if hold::copy(rt, kind, part, out) {
        return true;
    }
    tail::copy(rt, kind, part, out)
}

// A part that ends before its type does has none.
fn copy_box(rt: &impl Print, part: &[u8], out: &mut [u8]) {
    match numbers::read::<u32>(part, 4) {
        Err(_) => say::text(rt, b"- unknown\n"),
        Ok(kind) => {
            print_kind(rt, kind);
            if !copy_known(rt, kind, part, out) {
                say::text(rt, b" unknown");
            }
            say::text(rt, b"\n");
        }
    }
}

// The entry at `at`, and where the next one begins; the pack's end where this one is not whole.
fn copy_entry(rt: &impl Print, pack: &[u8], at: usize, out: &mut [u8]) -> usize {
    match packs::item_at(pack, at) {
        Item::End => pack.len(),
        Item::Cut => {
            say::text(rt, b"cut\n");
            pack.len()
        }
        Item::Is(from, length) => {
            copy_box(rt, parts::part(pack, from, length), out);
            from + length
        }
    }
}

// No pack has more entries than bytes.
fn copy_pack(rt: &impl Print, pack: &[u8], out: &mut [u8]) {
    let mut at = 0;
    for _ in 0..pack.len() {
        if pack.len() <= at {
            return;
        }
        at = copy_entry(rt, pack, at, out);
    }
}

// How many arguments there are, the program's own name among them.
fn arg_count(rt: &impl Env) -> usize {
    for i in 0..usize::MAX {
        if let Err(FillError::NotPresent) = rt.arg(i, &mut [0u8; 0]) {
            return i;
        }
    }
    usize::MAX
}

// Opens the file of that name. A name that is no UTF-8 can not be opened.
fn open_read(rt: &HostRuntime, name: &[u8]) -> io::Result<File> {
    match str::from_utf8(name) {
        Ok(path) => fs::open(rt, path),
        Err(_) => Err(io::Error::from(ErrorKind::InvalidFilename)),
    }
}

// How many bytes were read, until the room is full, the input ends or a read fails.
fn read_full(from: &mut impl Read, room: &mut [u8]) -> usize
    ensures { result ≤ length room.new }
{
    let mut done = 0;
    for _ in 0..u64::MAX {
        if done >= room.len() {
            break;
        }
        match from.read(&mut room[done..]) {
            Ok(0) | Err(_) => break,
            Ok(n) => done += n,
        }
    }
    done.min(room.len())
}

// The system's words for why a call failed, without the number that stands behind them.
fn words(why: &str) -> &str {
    match why.split_once(" (os error ") {
        Some((words, _)) => words,
        None => why,
    }
}

// A line of standard error: what failed, and why.
fn fail(rt: &HostRuntime, what: &[u8], why: &str) {
    let err = rt.stderr();
    say::text(&err, what);
    say::text(&err, b": ");
    let _ = err.println(why);
}

// The room for what is read, and for what is made of it.
fn room() -> [u8; 1048576]
    ensures { 1048576 ≡ length result }
{
    [0u8; 1048576]
}

// Packs of up to 1 MiB: what lies behind that is not read. A box that is written is never longer than its entry.
fn copy_file(rt: &HostRuntime, file: &mut File) {
    let mut space = room();
    let buffer: &mut [u8] = &mut space;
    let mut spare = room();
    let out: &mut [u8] = &mut spare;
    let got = read_full(file, buffer);
    copy_pack(rt, &buffer[..got], out);
}

fn copy_argument(rt: &HostRuntime, i: usize) {
    let mut path = [0u8; 4096];
    let Ok(length) = rt.arg(i, &mut path) else {
        fail(rt, b"argument", "File name too long");
        return;
    };
    match open_read(rt, &path[..length]) {
        Ok(mut file) => {
            say::text(rt, &path[..length]);
            say::text(rt, b"\n");
            copy_file(rt, &mut file);
        }
        Err(e) => match format!(in rt.alloc(); "{e}") {
            Ok(why) => fail(rt, &path[..length], words(why.as_str())),
            Err(_) => fail(rt, &path[..length], "it can not be opened"),
        },
    }
}

fn main(rt: HostRuntime) {
    for i in 1..arg_count(&rt) {
        copy_argument(&rt, i);
    }
}
