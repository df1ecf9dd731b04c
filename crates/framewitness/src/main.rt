#![tactic(auto)]
// Audits each file that an argument names, and writes a line for each to standard output, in their order: its name and
// the verdict, or why it was not read. `--list` as the first argument writes the samples of one file instead, `--help`
// explains the verdicts; behind `--` every argument is a file. At its end it writes one digit to descriptor 3, which the
// command at the repository's top makes its exit status: 0 where every file is clean, 1 where one is not, 2 where one was
// not read or the call is wrong.
mod call;
mod help;
mod line;
mod list;
mod meanings;
mod say;
mod source;

ghost use Rattle.std.specs.Prelude.{◌≡◌, ◌≤◌, length};

use call::{Call, Misuse};
use source::{MOST, Unread};
use std::env::{Env, FillError};
use std::fs;
use std::fs::OpenOptions;
use std::io::{Read, Seek, Write};
use std::rt::Files;
use verdicts::Audited;

// What is told of a file: its verdict, or its samples.
#[derive(Clone, Copy)]
enum Task {
    Audit,
    List,
}

// Descriptor 3, and what the system says of it.
const STATUS: &str = "/dev/fd/3";

const STATUS_INFO: &str = "/proc/self/fdinfo/3";

// What a call comes to. The larger one wins.
const CLEAN: u8 = 0;

const NOT_CLEAN: u8 = 1;

const NO_VERDICT: u8 = 2;

fn worse(a: u8, b: u8) -> u8 {
    if a < b { b } else { a }
}

// A line that is not written whole is as bad as a file that is not read.
fn written(rt: &impl Eprint, whole: bool, status: u8) -> u8 {
    if whole {
        return status;
    }
    say::error(rt, "framewitness: a line could not be written\n");
    NO_VERDICT
}

fn not_read(rt: &(impl Print + Eprint), name: &[u8], why: Unread) -> u8 {
    written(rt, line::name(rt, name) & line::unread(rt, why), NO_VERDICT)
}

fn tell_verdict(rt: &(impl Print + Eprint), name: &[u8], audited: Audited) -> u8 {
    let named = line::name(rt, name);
    match audited {
        Audited::Clean {
            tracks,
            samples,
            media,
        } => written(rt, named & line::clean(rt, tracks, samples, media), CLEAN),
        Audited::Found(finding) => written(rt, named & line::finding(rt, finding), NOT_CLEAN),
        Audited::Refused(refusal) => written(rt, named & line::refusal(rt, refusal), NOT_CLEAN),
    }
}

// The samples, and the status of the verdict; the verdict itself where it is why there are none.
fn tell_samples(rt: &(impl Print + Eprint), name: &[u8], file: &[u8], audited: Audited) -> u8 {
    match audited {
        Audited::Clean {
            tracks: _,
            samples: _,
            media: _,
        } => written(rt, list::print(rt, file), CLEAN),
        Audited::Found(_) => written(rt, list::print(rt, file), NOT_CLEAN),
        Audited::Refused(refusal) => tell_verdict(rt, name, Audited::Refused(refusal)),
    }
}

// How many bytes were read, until the room is full, the input ends or a read fails.
fn read_full(from: &mut impl Read, room: &mut [u8]) -> usize
    ensures { result ≤ length room.new }
{
    let mut done = 0;
    for _ in 0..u64::MAX {
        if done >= room.len() {
            break;
        }
        match from.read(&mut room[done..]) {
            Ok(0) | Err(_) => break,
            Ok(n) => done += n,
        }
    }
    done.min(room.len())
}

// Of the room only what was read of this file is handed on. A file may be cut, or a read fail, after its size was asked.
fn answer_sized(
    rt: &(impl Print + Eprint),
    task: Task,
    name: &[u8],
    file: &mut impl Read,
    size: usize,
    room: &mut [u8],
) -> u8 {
    let got = read_full(file, room);
    if got != size {
        return not_read(rt, name, Unread::NotWhole);
    }
    let audited = audit::audit(&room[..got]);
    match task {
        Task::Audit => tell_verdict(rt, name, audited),
        Task::List => tell_samples(rt, name, &room[..got], audited),
    }
}

fn answer_source<F: Read + Seek>(
    rt: &(impl Print + Eprint),
    task: Task,
    name: &[u8],
    file: &mut F,
    room: &mut [u8],
) -> u8 {
    match source::of(file) {
        Ok(size) => answer_sized(rt, task, name, file, size, room),
        Err(why) => not_read(rt, name, why),
    }
}

// A name that is no UTF-8 can not be opened.
fn answer_named<R: Files + Print + Eprint>(rt: &R, task: Task, name: &[u8], room: &mut [u8]) -> u8 {
    let Ok(path) = str::from_utf8(name) else {
        return not_read(rt, name, Unread::Unopened);
    };
    match fs::open(rt, path) {
        Ok(mut file) => answer_source(rt, task, name, &mut file, room),
        Err(_) => not_read(rt, name, Unread::Unopened),
    }
}

fn answer_argument<R: Files + Env + Print + Eprint>(
    rt: &R,
    task: Task,
    i: usize,
    room: &mut [u8],
) -> u8 {
    let mut name = [0u8; 4096];
    match rt.arg(i, &mut name) {
        Ok(length) => answer_named(rt, task, &name[..length], room),
        Err(_) => written(rt, line::too_long(rt, &name), NO_VERDICT),
    }
}

fn audit_files<R: Files + Env + Print + Eprint>(
    rt: &R,
    first: usize,
    n: usize,
    room: &mut [u8],
) -> u8 {
    let mut status = CLEAN;
    for i in first..n {
        status = worse(status, answer_argument(rt, Task::Audit, i, room));
    }
    status
}

// How many arguments there are, the program's own name among them.
fn arg_count(rt: &impl Env) -> usize {
    for i in 0..usize::MAX {
        if let Err(FillError::NotPresent) = rt.arg(i, &mut [0u8; 0]) {
            return i;
        }
    }
    usize::MAX
}

// The arguments from this one on.
fn audit_from<R: Files + Env + Print + Eprint>(rt: &R, first: usize, room: &mut [u8]) -> u8 {
    let n = arg_count(rt);
    if n <= first {
        call::wrong(rt, Misuse::NoFile);
        return NO_VERDICT;
    }
    audit_files(rt, first, n, room)
}

// The one argument behind --list.
fn list_one<R: Files + Env + Print + Eprint>(rt: &R, room: &mut [u8]) -> u8 {
    if arg_count(rt) != 3 {
        call::wrong(rt, Misuse::NotOneFile);
        return NO_VERDICT;
    }
    answer_argument(rt, Task::List, 2, room)
}

fn answer<R: Files + Env + Print + Eprint>(rt: &R, room: &mut [u8]) -> u8 {
    match call::first(rt) {
        Call::Help => written(rt, help::print(rt), CLEAN),
        Call::List => list_one(rt, room),
        Call::Files(first) => audit_from(rt, first, room),
        Call::Unknown => {
            call::wrong(rt, Misuse::UnknownOption);
            NO_VERDICT
        }
    }
}

// Whether what the system says of a descriptor has it open for writing. The last octal digit of its flags says how it was
// opened: 0 for reading, 1 for writing and 2 for both, with 4 more for a flag of another kind.
fn is_open_for_writing(info: &str) -> bool {
    let Some((_, flags)) = info.split_once("flags:") else {
        return false;
    };
    let Some((flags, _)) = flags.split_once("\n") else {
        return false;
    };
    matches!(flags.as_bytes().last(), Some(b'1' | b'2' | b'5' | b'6'))
}

// A file that descriptor 3 has open for reading alone is not written.
fn can_be_told(rt: &impl Files) -> bool {
    let Ok(mut file) = fs::open(rt, STATUS_INFO) else {
        return false;
    };
    let mut info = [0u8; 256];
    let got = read_full(&mut file, &mut info);
    match str::from_utf8(&info[..got]) {
        Ok(info) => is_open_for_writing(info),
        Err(_) => false,
    }
}

fn tell(rt: &impl Files, status: u8) -> bool {
    if !can_be_told(rt) {
        return false;
    }
    let Ok(mut file) = OpenOptions::new().append(true).open(rt, STATUS) else {
        return false;
    };
    let digit: &[u8] = match status {
        0 => b"0",
        1 => b"1",
        _ => b"2",
    };
    file.write_all(digit).is_ok()
}

// The one room for the bytes of files, each in its turn: it takes half of the stack, and is cleared once.
fn room() -> [u8; MOST]
    ensures { MOST ≡ length result }
{
    [0u8; MOST]
}

fn main(rt: HostRuntime) {
    let mut space = room();
    let room: &mut [u8] = &mut space;
    let status = answer(&rt, room);
    tell(&rt, status);
}
