#![tactic(auto, unfolding(numbers::specs::Field::when, numbers::specs::Field::field))]
// What a track tells of itself, in twelve words.
ghost use Rattle.std.specs.Prelude.{◌≡◌, [], ◌∷◌, ◌+◌, ◌≤◌, length};
ghost use Rattle.std.proofs.lemmas.List.Edits.{sets};
ghost use Rattle.samples.specs.Records.{output};
ghost use Rattle.summary.specs.Figures.{frames_of};
ghost use Rattle.trak_boxes.specs.TrakBoxes.{hdlr_in};
ghost use Rattle.figures.specs.Words.{figures_by, by_hdlr, told_of, word_count, words_of, figures_of};

use mdhd::Mdhd;
use numbers::Refusal;
use tkhd::Tkhd;

// The duration is in units of the timescale; width and height are raw 16.16; handler and entry are four letters each, the
// entry 0 where there is none.
#[derive(Clone, Copy)]
pub struct Figures {
    pub number: u64,
    pub handler: u64,
    pub entry: u64,
    pub timescale: u64,
    pub duration: u64,
    pub micros: u64,
    pub samples: u64,
    pub bytes: u64,
    pub frames: u64,
    pub width: u64,
    pub height: u64,
    pub language: u64,
}

// How many words there are.
const WORDS: usize = 12;

// The bits of three letters, and no pad bit.
const LETTERS: u16 = 0x8000;

// The whole frames to a second, of so many in that many milliseconds; 0 where those are 0.
fn frames(samples: u32, millis: u64) -> u64
    ensures { result ≡ frames_of samples millis }
{
    if millis == 0 {
        return 0;
    }
    (samples as u64) * 1000 / millis
}

// The figures from what was read.
fn build(
    head: Tkhd,
    media: Mdhd,
    handler: u32,
    entry: u32,
    micros: u64,
    samples: u32,
    bytes: u64,
) -> Figures
    ensures { result ≡ figures_by head media handler entry micros samples bytes }
{
    Figures {
        number: head.track_id as u64,
        handler: handler as u64,
        entry: entry as u64,
        timescale: media.timescale as u64,
        duration: media.duration,
        micros,
        samples: samples as u64,
        bytes,
        frames: frames(samples, micros / 1000),
        width: head.width as u64,
        height: head.height as u64,
        language: (media.language % LETTERS) as u64,
    }
}

// What comes behind the tkhd and the mdhd: the handler, the sample entry and the duration.
fn rest(trak: &[u8], head: Tkhd, media: Mdhd, samples: u32, bytes: u64) -> Result<Figures, Refusal>
    ensures { result ≡ by_hdlr trak.now head media samples bytes (hdlr_in trak.now) }
{
    let d = trak_boxes::hdlr(trak)?;
    let entry = trak_boxes::entry_kind(trak)?;
    let micros = duration::micros(media.duration, media.timescale)?;
    Ok(build(head, media, d.handler_type, entry, micros, samples, bytes))
}

#[tactic(auto, unfolding(numbers::specs::Field::when, numbers::specs::Field::field, crate::specs::Words::told_of))]
fn gather(trak: &[u8], samples: u32, bytes: u64) -> Result<Figures, Refusal>
    ensures { result ≡ told_of trak.now samples bytes }
{
    let head = trak_boxes::tkhd(trak)?;
    let media = trak_boxes::mdhd(trak)?;
    rest(trak, head, media, samples, bytes)
}

// Six words, from place `at` on.
fn six(out: &mut [u64], at: usize, a: u64, b: u64, c: u64, d: u64, e: u64, f: u64)
    requires { at + 6 ≤ length out.old }
    ensures { out.new ≡ sets out.old at (a ∷ b ∷ c ∷ d ∷ e ∷ f ∷ []) }
{
    out[at] = a;
    out[at + 1] = b;
    out[at + 2] = c;
    out[at + 3] = d;
    out[at + 4] = e;
    out[at + 5] = f;
}

// The words at the start of a buffer that has room for them.
fn put(out: &mut [u64], x: Figures)
    requires { word_count ≤ length out.old }
    ensures { out.new ≡ sets out.old 0 (words_of x) }
{
    six(
        out,
        0,
        x.number,
        x.handler,
        x.entry,
        x.timescale,
        x.duration,
        x.micros,
    );
    six(
        out, 6, x.samples, x.bytes, x.frames, x.width, x.height, x.language,
    );
}

// The figures of the track of a trak with so many samples of so many bytes, as words at the start of the buffer; or the
// buffer as it was, and what is refused of the tkhd, the mdhd, the hdlr, the sample entry or the duration, then TooSmall.
pub fn of(trak: &[u8], samples: u32, bytes: u64, out: &mut [u64]) -> Result<usize, Refusal>
    ensures { output result out.new ≡ figures_of trak.now samples bytes out.old }
{
    let figures = gather(trak, samples, bytes)?;
    if out.len() < WORDS {
        return Err(Refusal::TooSmall(WORDS));
    }
    put(out, figures);
    Ok(WORDS)
}
