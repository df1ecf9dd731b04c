// What any track tells of itself.
use crate::say;
use language::Letters;
use media::entries::Media;
use media::handlers::Kind;
use media::{entries, handlers};

// Letters are printed as they are; a byte that is no printable ASCII as '?'.
fn letter(b: u8) -> u8 {
    if (b < 0x20) | (0x7e < b) { b'?' } else { b }
}

fn spoken(rt: &impl Print, l: Letters) {
    let first = letter(l.first);
    let second = letter(l.second);
    let third = letter(l.third);
    say::word(rt, b"language", &[first, second, third]);
}

fn language(rt: &impl Print, trak: &[u8]) {
    match track::language(trak) {
        Ok(l) => spoken(rt, l),
        Err(q) => say::refused(rt, b"language", q),
    }
}

fn kind_word(rt: &impl Print, k: Kind) {
    match k {
        Kind::Video => say::word(rt, b"kind", b"video"),
        Kind::Audio => say::word(rt, b"kind", b"audio"),
        Kind::Subtitle => say::word(rt, b"kind", b"subtitle"),
    }
}

fn kind(rt: &impl Print, trak: &[u8]) {
    match track::kind(trak) {
        Ok(k) => kind_word(rt, k),
        Err(q) => say::refused(rt, b"kind", q),
    }
}

fn media_word(rt: &impl Print, m: Media) {
    match m {
        Media::H264 => say::word(rt, b"media", b"h264"),
        Media::H265 => say::word(rt, b"media", b"h265"),
        Media::VP9 => say::word(rt, b"media", b"vp9"),
        Media::AAC => say::word(rt, b"media", b"aac"),
        Media::TTXT => say::word(rt, b"media", b"ttxt"),
    }
}

fn coded(rt: &impl Print, trak: &[u8]) {
    match track::media(trak) {
        Ok(m) => media_word(rt, m),
        Err(q) => say::refused(rt, b"media", q),
    }
}

pub(crate) fn tell(rt: &impl Print, trak: &[u8]) {
    say::four(rt, b"number", track::number(trak));
    say::four(rt, b"timescale", track::timescale(trak));
    language(rt, trak);
    kind(rt, trak);
    coded(rt, trak);
    say::four(rt, b"samples", track::samples(trak));
}
