// What --help says. Each function tells whether all of it was written.
use crate::{meanings, say};

// The calls, what the audit asks, and a file's line.
fn lines(rt: &impl Print) -> bool {
    say::text(
        rt,
        b"framewitness FILE ...       audits files, and writes a line for each\n\
          framewitness -- FILE ...    the same, where the first name begins with -\n\
          framewitness --list FILE    lists the samples of a file (see below)\n\
          framewitness --help         writes this\n\
          \n\
          An MP4 file has media data, the bytes of its pictures and sounds, and tables\n\
          that say where in them each sample lies (a picture or a piece of sound) and\n\
          when it is played. The audit asks whether the two fit together. The same\n\
          bytes always have the same answer.\n\
          \n\
          FILE: clean tracks=2 samples=289 media=33420\n\
          \x20   They fit together: so many tracks, samples and bytes of media data.\n\
          FILE: F5 track=1 sample=5 position=147 gap=0 (words)\n\
          \x20   They do not. This is the first thing that was found; more may be wrong.\n\
          \x20   position is the number of bytes before it in the file. A number that\n\
          \x20   this finding does not use is 0. gap is for F8 alone: how much later a\n\
          \x20   fragment begins than the one before it ends, in the units of time of\n\
          \x20   its track; below 0 where it begins earlier.\n\
          FILE: refused 1 detail=48 (words)\n\
          \x20   The file can not be read as an MP4 file, and its samples are not looked\n\
          \x20   at. detail is the position of the first fault; for 5 the four letters\n\
          \x20   of what is missing; for 9 and 10 it is 0.\n\
          FILE: not read (words)\n\
          \x20   Nothing is said of this file; the others are audited.\n\
          \n",
    )
}

// The list, the exit status, document 01's limits and this program's own, and what clean means: README.md has the same.
fn bounds(rt: &impl Print) -> bool {
    say::text(
        rt,
        b"A list has a line for each sample, by track in the order of the moov box, tabs\n\
          between: the track and the number of the sample, the bytes before it in the\n\
          file and its own, when it is decoded and how long it lasts in the units of time\n\
          of its track, how much later it is shown, and 1 where decoding may begin with it.\n\
          A refused file has no list; its line is written instead.\n\
          \n\
          The exit status is 0 where every file is clean, 1 where one is not, and 2\n\
          where one was not read or the call is wrong.\n\
          \n\
          Limits: a file of 4,194,304 bytes; 4 tracks; 65,536 samples to a track;\n\
          4,096 parts (boxes), 10 deep in each other; 1,024 fragments; times below\n\
          2 to the power of 63. A larger file is not read; past another limit it is\n\
          refused.\n\
          \n\
          Clean says: the tables of each track agree with each other. No sample is\n\
          empty, and none but a track's last lasts no time. Every byte of media data\n\
          belongs to exactly one sample. The samples of each track lie in the order of\n\
          their numbers. Fragments follow each other in number and in time. Read the\n\
          numbers beside the word: a file may be clean and hold nothing.\n\
          \n\
          Clean does not say what the pictures show, nor who made the file, nor when.\n\
          Nothing is decoded. A file stays clean where neighbouring samples are merged\n\
          into one; where its first or last fragments are lost; where its timescale,\n\
          edit list, composition offsets or sync flags are changed. Bytes outside the\n\
          media data (the payloads of the mdat boxes at the top) are no part of it:\n\
          those of boxes that are not known, of free, skip, uuid and meta, and those\n\
          behind the known fields of a box.\n",
    )
}

fn finding(rt: &impl Print, number: u32) -> bool {
    say::field(rt, b"    F", number as u64)
        & say::text(rt, b"  ")
        & meanings::finding(rt, number)
        & say::text(rt, b"\n")
}

fn findings(rt: &impl Print) -> bool {
    say::text(rt, b"Findings:\n")
        & finding(rt, 1)
        & finding(rt, 2)
        & finding(rt, 3)
        & finding(rt, 4)
        & finding(rt, 5)
        & finding(rt, 6)
        & finding(rt, 7)
        & finding(rt, 8)
        & say::text(rt, b"\n")
}

fn refusal(rt: &impl Print, number: u32) -> bool {
    say::field(rt, b"    ", number as u64)
        & say::text(rt, b"  ")
        & meanings::refusal(rt, number)
        & say::text(rt, b"\n")
}

fn refusals(rt: &impl Print) -> bool {
    say::text(rt, b"Refusals:\n")
        & refusal(rt, 1)
        & refusal(rt, 2)
        & refusal(rt, 3)
        & refusal(rt, 4)
        & refusal(rt, 5)
        & refusal(rt, 6)
        & refusal(rt, 7)
        & refusal(rt, 8)
        & refusal(rt, 9)
        & refusal(rt, 10)
        & say::text(rt, b"\n")
}

pub(crate) fn print(rt: &impl Print) -> bool {
    lines(rt) & findings(rt) & refusals(rt) & bounds(rt)
}
