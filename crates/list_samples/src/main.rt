#![tactic(auto)]
// Lists the samples of each stbl of the packs that the arguments name, and looks them up.
// A pack is a row of entries: a length in four bytes, the highest first, and as many bytes, an stbl from its header on.
// For each entry there is a line `refused` with the number and the detail; or `track` with the count and the bytes of its
// samples, a line for each sample that a lane gives, then `end`, or `refused` where a sample does not fit, or `more`; then
// a line for each lookup of a sample that the lane does not give: 0, those behind one that does not fit, and two past the
// end. An empty line ends the entry. A sample's line has its number, offset, size, time, duration, composition offset and
// whether it is sync (1 or 0), and then `same` where the lookup has the same, else `other`. A lookup's line has `sample`,
// the number, the same numbers or its refusal, and then whether the sample is sync, or that refusal. Words have a tab
// between them.
ghost use Rattle.std.specs.Prelude.{◌≡◌, ◌≤◌, length};

mod say;

use lanes::Taken;
use numbers::Refusal;
use samples::{Located, Sample};
use std::env::{Env, FillError};
use std::fs::File;
use std::io::{ErrorKind, Read};
use std::{fs, io};
use tables::Track;

// How many samples are told of a track, and how many are looked up behind them.
const SAMPLES: u32 = 65536;

const BEHIND: u32 = 64;

// A number past the end of all but the longest tracks.
const FAR: u32 = 4_000_000_000;

fn bit(b: bool) -> u64 {
    if b { 1 } else { 0 }
}

fn print_fields(rt: &impl Print, s: Located) {
    say::next_number(rt, s.offset);
    say::next_number(rt, s.size as u64);
    say::next_number(rt, s.time);
    say::next_number(rt, s.duration as u64);
    say::next_signed(rt, s.composition);
}

// What a lookup should tell of the sample.
fn located(s: Sample) -> Located {
    Located {
        offset: s.offset,
        size: s.size,
        time: s.time,
        duration: s.duration,
        composition: s.composition,
    }
}

fn same(a: Located, b: Located) -> bool {
    (a.offset == b.offset)
        & (a.size == b.size)
        & (a.time == b.time)
        & (a.duration == b.duration)
        & (a.composition == b.composition)
}

fn has_sync(file: &[u8], track: Track, s: Sample) -> bool {
    match lookup::is_sync(file, track, s.number) {
        Ok(b) => bit(b) == bit(s.sync),
        Err(_) => false,
    }
}

// Whether the lookup has the same sample.
fn looks_up(file: &[u8], track: Track, s: Sample) -> bool {
    match locate::sample(file, track, s.number) {
        Ok(t) => same(located(s), t) & has_sync(file, track, s),
        Err(_) => false,
    }
}

fn print_sample(rt: &impl Print, file: &[u8], track: Track, s: Sample) {
    say::number(rt, s.number as u64);
    print_fields(rt, located(s));
    say::next_number(rt, bit(s.sync));
    if looks_up(file, track, s) {
        say::text(rt, b"\tsame\n");
    } else {
        say::text(rt, b"\tother\n");
    }
}

// The samples that a lane gives, and how many these are.
fn list_lane(rt: &impl Print, file: &[u8], track: Track) -> u32 {
    let mut lane = lanes::start();
    for i in 0..SAMPLES {
        match lanes::next(file, track, lane) {
            Taken::End => {
                say::text(rt, b"end\n");
                return i;
            }
            Taken::Over => {
                say::refused(rt, Refusal::Overflow);
                say::text(rt, b"\n");
                return i;
            }
            Taken::One {
                sample,
                lane: after,
            } => {
                print_sample(rt, file, track, sample);
                lane = after;
            }
        }
    }
    say::text(rt, b"more\n");
    SAMPLES
}

fn print_sync(rt: &impl Print, file: &[u8], track: Track, number: u32) {
    match lookup::is_sync(file, track, number) {
        Ok(b) => say::next_number(rt, bit(b)),
        Err(q) => {
            say::text(rt, b"\t");
            say::refused(rt, q);
        }
    }
}

fn print_lookup(rt: &impl Print, file: &[u8], track: Track, number: u32) {
    say::text(rt, b"sample");
    say::next_number(rt, number as u64);
    match locate::sample(file, track, number) {
        Ok(s) => print_fields(rt, s),
        Err(q) => {
            say::text(rt, b"\t");
            say::refused(rt, q);
        }
    }
    print_sync(rt, file, track, number);
    say::text(rt, b"\n");
}

// The lookups behind so many samples.
fn look_behind(rt: &impl Print, file: &[u8], track: Track, told: u32, count: u32) {
    for i in told..count {
        if BEHIND <= i - told {
            return;
        }
        print_lookup(rt, file, track, i + 1);
    }
}

fn list_track(rt: &impl Print, file: &[u8], track: Track) {
    let count = lookup::count(file, track);
    say::text(rt, b"track");
    say::next_number(rt, count as u64);
    say::next_number(rt, lookup::total(file, track));
    say::text(rt, b"\n");
    let told = list_lane(rt, file, track);
    print_lookup(rt, file, track, 0);
    look_behind(rt, file, track, told, count);
    if count < FAR {
        print_lookup(rt, file, track, count + 1);
    }
    print_lookup(rt, file, track, FAR);
}

fn print_refused(rt: &impl Print, q: Refusal) {
    say::refused(rt, q);
    say::text(rt, b"\n");
}

fn list_stbl(rt: &impl Print, part: &[u8]) {
    match tableboxes::find(part) {
        Err(q) => print_refused(rt, q),
        Ok(boxes) => match stbl::track(part, boxes) {
            Err(q) => print_refused(rt, q),
            Ok(track) => list_track(rt, part, track),
        },
    }
}

// The entry at `at`, and where the next one begins; the pack's end where this one is not whole.
fn list_entry(rt: &impl Print, pack: &[u8], at: usize) -> usize {
    let Ok(n) = numbers::read::<u32>(pack, at) else {
        return pack.len();
    };
    if pack.len() < at {
        return pack.len();
    }
    let room = pack.len() - at;
    if room < 4 {
        return pack.len();
    }
    let length = n as usize;
    if room - 4 < length {
        say::text(rt, b"cut\n");
        return pack.len();
    }
    let from = at + 4;
    let end = from + length;
    list_stbl(rt, &pack[from..end]);
    say::text(rt, b"\n");
    end
}

// No pack has more entries than bytes.
fn list_pack(rt: &impl Print, pack: &[u8]) {
    let mut at = 0;
    for _ in 0..pack.len() {
        if pack.len() <= at {
            return;
        }
        at = list_entry(rt, pack, at);
    }
}

// How many arguments there are, the program's own name among them.
fn arg_count(rt: &impl Env) -> usize {
    for i in 0..usize::MAX {
        if let Err(FillError::NotPresent) = rt.arg(i, &mut [0u8; 0]) {
            return i;
        }
    }
    usize::MAX
}

// Opens the file of that name. A name that is no UTF-8 can not be opened.
fn open_read(rt: &HostRuntime, name: &[u8]) -> io::Result<File> {
    match str::from_utf8(name) {
        Ok(path) => fs::open(rt, path),
        Err(_) => Err(io::Error::from(ErrorKind::InvalidFilename)),
    }
}

// How many bytes were read, until the room is full, the input ends or a read fails.
fn read_full(from: &mut impl Read, room: &mut [u8]) -> usize
    ensures { result ≤ length room.new }
{
    let mut done = 0;
    for _ in 0..u64::MAX {
        if done >= room.len() {
            break;
        }
        match from.read(&mut room[done..]) {
            Ok(0) | Err(_) => break,
            Ok(n) => done += n,
        }
    }
    done.min(room.len())
}

// The system's words for why a call failed, without the number that stands behind them.
fn words(why: &str) -> &str {
    match why.split_once(" (os error ") {
        Some((words, _)) => words,
        None => why,
    }
}

// A line of standard error: what failed, and why.
fn fail(rt: &HostRuntime, what: &[u8], why: &str) {
    let err = rt.stderr();
    say::text(&err, what);
    say::text(&err, b": ");
    let _ = err.println(why);
}

// The room for what is read.
fn room() -> [u8; 1048576]
    ensures { 1048576 ≡ length result }
{
    [0u8; 1048576]
}

// Packs of up to 1 MiB: what lies behind that is not read.
fn list_file(rt: &HostRuntime, file: &mut File) {
    let mut space = room();
    let buffer: &mut [u8] = &mut space;
    let got = read_full(file, buffer);
    list_pack(rt, &buffer[..got]);
}

fn list_argument(rt: &HostRuntime, i: usize) {
    let mut path = [0u8; 4096];
    let Ok(length) = rt.arg(i, &mut path) else {
        fail(rt, b"argument", "File name too long");
        return;
    };
    match open_read(rt, &path[..length]) {
        Ok(mut file) => {
            say::text(rt, &path[..length]);
            say::text(rt, b"\n");
            list_file(rt, &mut file);
        }
        Err(e) => match format!(in rt.alloc(); "{e}") {
            Ok(why) => fail(rt, &path[..length], words(why.as_str())),
            Err(_) => fail(rt, &path[..length], "it can not be opened"),
        },
    }
}

fn main(rt: HostRuntime) {
    for i in 1..arg_count(&rt) {
        list_argument(&rt, i);
    }
}
