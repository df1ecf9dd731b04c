#![tactic(auto, unfolding(numbers::specs::Field::when, numbers::specs::Field::field))]
// The functions that a program in Rust or C calls, each on a lent file and on lent words. The number of the answer is
// returned; `also` is what document 01 has returned beside it, and is written with every answer.
ghost use Rattle.std.specs.Prelude.{◌≡◌, []};
ghost use Rattle.samples.specs.Records.{bits_of};
ghost use Rattle.witness.specs.Says.{said, answered, four_say, verdict_says, audit_says, answer_by, track_says, list_says, sample_says, summary_says};

use numbers::Refusal;
use opened::Question;
use verdicts::Audited;

#[derive(Clone, Copy)]
pub(crate) struct Answer {
    pub number: u32,
    pub also: u64,
}

const ALL_ONES: u64 = 0xFFFF_FFFF_FFFF_FFFF;

// The 64 bits of a signed number, in two's complement.
fn bits(c: i64) -> u64
    ensures { result ≡ bits_of c }
{
    if c < 0 {
        let d = -1 - c;
        return ALL_ONES - (d as u64);
    }
    c as u64
}

// Four words at the start of out.
fn four(also: u64, a: u64, b: u64, c: u64, d: u64, out: &mut [u64]) -> Answer
    ensures { answered result out.new ≡ four_say also a b c d out.old }
{
    if out.len() < 4 {
        return Answer {
            number: 12,
            also: 4,
        };
    }
    out[0] = a;
    out[1] = b;
    out[2] = c;
    out[3] = d;
    Answer { number: 0, also }
}

fn say_verdict(audited: Audited, out: &mut [u64]) -> Answer
    ensures { answered result out.new ≡ verdict_says audited out.old }
{
    match audited {
        Audited::Clean {
            tracks,
            samples,
            media,
        } => four(0, tracks as u64, samples, media, 0, out),
        Audited::Found(f) => {
            let gap = f.gap;
            four(
                f.number as u64,
                f.track as u64,
                f.sample as u64,
                f.position,
                bits(gap),
                out,
            )
        }
        Audited::Refused(q) => Answer {
            number: q.code(),
            also: q.detail() as u64,
        },
    }
}

// The verdict on a file in four words: where it is clean, its tracks, its samples, its media bytes and 0; where it is not,
// the track, the sample, the position and the gap of the finding whose number is told beside them.
#[unsafe(no_mangle)]
pub extern "C" fn framewitness_audit(file: &[u8], out: &mut [u64], also: &mut u64) -> u32
    ensures { said result also.new out.new ≡ audit_says file.now out.old }
{
    let audited = audit::audit(file);
    let verdict = say_verdict(audited, out);
    *also = verdict.also;
    verdict.number
}

// How many records or words were written, or the refusal.
fn say_listed(listed: Result<usize, Refusal>) -> Answer
    ensures { result ≡ answer_by listed }
{
    match listed {
        Ok(n) => Answer {
            number: 0,
            also: n as u64,
        },
        Err(why) => Answer {
            number: why.code(),
            also: why.detail() as u64,
        },
    }
}

// The number of the track at a place in the moov box, counted from 0; no words are lent for it.
#[unsafe(no_mangle)]
pub extern "C" fn framewitness_track(file: &[u8], place: usize, also: &mut u64) -> u32
    ensures { said result also.new [] ≡ track_says file.now place }
{
    let mut none = [0u64; 0];
    let listed = opened::tell(file, place, Question::Number, &mut none);
    let track = say_listed(listed);
    *also = track.also;
    track.number
}

// The samples of the track at a place: a record of seven words each.
#[unsafe(no_mangle)]
pub extern "C" fn framewitness_list(
    file: &[u8],
    place: usize,
    out: &mut [u64],
    also: &mut u64,
) -> u32
    ensures { said result also.new out.new ≡ list_says file.now place out.old }
{
    let listed = opened::tell(file, place, Question::List, out);
    let list = say_listed(listed);
    *also = list.also;
    list.number
}

// The sample of that number, counted from 1, of the track at a place: one such record.
#[unsafe(no_mangle)]
pub extern "C" fn framewitness_sample(
    file: &[u8],
    place: usize,
    number: u32,
    out: &mut [u64],
    also: &mut u64,
) -> u32
    ensures { said result also.new out.new ≡ sample_says file.now place number out.old }
{
    let listed = opened::tell(file, place, Question::Sample(number), out);
    let sample = say_listed(listed);
    *also = sample.also;
    sample.number
}

// The figures of the track at a place, in twelve words.
#[unsafe(no_mangle)]
pub extern "C" fn framewitness_summary(
    file: &[u8],
    place: usize,
    out: &mut [u64],
    also: &mut u64,
) -> u32
    ensures { said result also.new out.new ≡ summary_says file.now place out.old }
{
    let listed = opened::tell(file, place, Question::Summary, out);
    let summary = say_listed(listed);
    *also = summary.also;
    summary.number
}
