#![tactic(auto, unfolding(numbers::specs::Field::when, numbers::specs::Field::field))]
// What an audit answers. What it means is in specs/, what clean means in specs/Meaning.antt; the walks over a file
// promise equations with these definitions.
use numbers::Refusal;

// A finding by its number, F1 to F8; each other field is 0 where that finding does not use it. The track is the number
// in its tkhd, which is never 0; samples count from 1.
#[derive(Clone, Copy)]
pub struct Finding {
    pub number: u32,
    pub track: u32,
    pub sample: u32,
    pub position: u64,
    pub gap: i64,
}

// Clean tells how much it is about: so many tracks, samples and bytes of media data.
#[derive(Clone, Copy)]
pub enum Verdict {
    Clean {
        tracks: u32,
        samples: u64,
        media: u64,
    },
    Found(Finding),
}

// The answer to a file: a verdict, or why it is refused.
#[derive(Clone, Copy)]
pub enum Audited {
    Clean {
        tracks: u32,
        samples: u64,
        media: u64,
    },
    Found(Finding),
    Refused(Refusal),
}
