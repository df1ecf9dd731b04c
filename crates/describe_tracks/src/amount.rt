// How large a track is, and its summary: the frame rate, the width and the height, each as its whole part and the 65,536ths
// behind it, and the microseconds.
use crate::say;
use summary::Summary;

// Tested against both ends, since no other number has a whole part of 64 bits.
fn whole(x: f64) -> u64 {
    if x > -1.0 {
        if x < 18446744073709551616.0 {
            return std::num::truncating_f64_to_u64(x);
        }
    }
    0
}

fn figure(rt: &impl Print, x: f64) {
    let n = whole(x);
    let behind = x - std::num::nearest_u64_to_f64(n);
    say::number(rt, n);
    say::number(rt, whole(behind * 65536.0));
}

fn summed(rt: &impl Print, s: Summary) {
    say::text(rt, b"summary");
    figure(rt, s.frame_rate);
    figure(rt, s.width);
    figure(rt, s.height);
    say::number(rt, s.micros);
    say::end(rt);
}

pub(crate) fn tell(rt: &impl Print, trak: &[u8]) {
    say::eight(rt, b"bytes", track_size::bytes(trak));
    say::four(rt, b"bitrate", track_size::bitrate(trak));
    match track_size::summary(trak) {
        Ok(s) => summed(rt, s),
        Err(q) => say::refused(rt, b"summary", q),
    }
}
