// Questions of codes: what a code stands for.
use crate::say;
use media::{entries, handlers};
use numbers::Refusal;

// 'kind', 'medi', 'prof', 'aot ', 'freq', 'inde' and 'chan'.
const KIND: u32 = 0x6b696e64;

const MEDIA: u32 = 0x6d656469;

const PROFILE: u32 = 0x70726f66;

const OBJECT: u32 = 0x616f7420;

const FREQUENCY: u32 = 0x66726571;

const INDEX: u32 = 0x696e6465;

const CHANNELS: u32 = 0x6368616e;

fn say_byte(rt: &impl Print, answer: Result<u8, Refusal>) {
    match answer {
        Ok(n) => say::one(rt, n as u32),
        Err(q) => say::refused(rt, q),
    }
}

fn say_word(rt: &impl Print, answer: Result<u32, Refusal>) {
    match answer {
        Ok(n) => say::one(rt, n),
        Err(q) => say::refused(rt, q),
    }
}

fn track(rt: &impl Print, letters: u32) {
    match handlers::kind_of(letters) {
        Err(q) => say::refused(rt, q),
        Ok(kind) => {
            match kind {
                handlers::Kind::Video => say::text(rt, b" video"),
                handlers::Kind::Audio => say::text(rt, b" audio"),
                handlers::Kind::Subtitle => say::text(rt, b" subtitle"),
            }
        }
    }
}

fn coded(rt: &impl Print, letters: u32) {
    match entries::media_of(letters) {
        Err(q) => say::refused(rt, q),
        Ok(media) => {
            match media {
                entries::Media::H264 => say::text(rt, b" h264"),
                entries::Media::H265 => say::text(rt, b" h265"),
                entries::Media::VP9 => say::text(rt, b" vp9"),
                entries::Media::AAC => say::text(rt, b" aac"),
                entries::Media::TTXT => say::text(rt, b" ttxt"),
            }
        }
    }
}

fn profile(rt: &impl Print, indication: u8, compatibility: u8) {
    match profiles::profile_of(indication, compatibility) {
        Err(q) => say::refused(rt, q),
        Ok(profile) => {
            match profile {
                profiles::Profile::ConstrainedBaseline => say::text(rt, b" constrained"),
                profiles::Profile::Baseline => say::text(rt, b" baseline"),
                profiles::Profile::Main => say::text(rt, b" main"),
                profiles::Profile::Extended => say::text(rt, b" extended"),
                profiles::Profile::High => say::text(rt, b" high"),
            }
        }
    }
}

// Answers a question of four bytes, and whether it was one.
fn tell_word(rt: &impl Print, kind: u32, n: u32) -> bool {
    if kind == KIND {
        track(rt, n);
        return true;
    }
    if kind == MEDIA {
        coded(rt, n);
        return true;
    }
    if kind == INDEX {
        say_byte(rt, audio::frequencies::index_of(n));
        return true;
    }
    false
}

fn tell_byte(rt: &impl Print, kind: u32, n: u8) -> bool {
    if kind == OBJECT {
        say_byte(rt, audio::objects::object_type(n));
        return true;
    }
    if kind == FREQUENCY {
        say_word(rt, audio::frequencies::frequency(n));
        return true;
    }
    if kind == CHANNELS {
        say_byte(rt, audio::channels::configuration(n));
        return true;
    }
    false
}

fn tell_profile(rt: &impl Print, part: &[u8], indication: u8) -> bool {
    let Ok(compatibility) = numbers::read::<u8>(part, 9) else {
        return false;
    };
    profile(rt, indication, compatibility);
    true
}

// What is asked stands behind the letters; whether it is all there, and a question.
pub(crate) fn tell(rt: &impl Print, kind: u32, part: &[u8]) -> bool {
    let Ok(first) = numbers::read::<u8>(part, 8) else {
        return false;
    };
    if kind == PROFILE {
        return tell_profile(rt, part, first);
    }
    if tell_byte(rt, kind, first) {
        return true;
    }
    let Ok(n) = numbers::read::<u32>(part, 8) else {
        return false;
    };
    tell_word(rt, kind, n)
}
