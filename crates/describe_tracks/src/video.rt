// What an H.264 track tells: its profile, and some parameter sets of either list.
use crate::say;
use numbers::Refusal;
use profiles::Profile;

fn profile_word(rt: &impl Print, p: Profile) {
    match p {
        Profile::ConstrainedBaseline => say::word(rt, b"video_profile", b"constrained"),
        Profile::Baseline => say::word(rt, b"video_profile", b"baseline"),
        Profile::Main => say::word(rt, b"video_profile", b"main"),
        Profile::Extended => say::word(rt, b"video_profile", b"extended"),
        Profile::High => say::word(rt, b"video_profile", b"high"),
    }
}

fn profile(rt: &impl Print, trak: &[u8]) {
    match track_video::profile(trak) {
        Ok(p) => profile_word(rt, p),
        Err(q) => say::refused(rt, b"video_profile", q),
    }
}

fn part(rt: &impl Print, name: &[u8], i: u8, found: &[u8]) {
    say::text(rt, name);
    say::number(rt, i as u64);
    say::bytes(rt, found);
    say::end(rt);
}

fn judged(rt: &impl Print, name: &[u8], i: u8, answer: Result<(), Refusal>) {
    say::text(rt, name);
    say::number(rt, i as u64);
    match answer {
        Ok(()) => say::text(rt, b"\tfine\n"),
        Err(q) => say::refusal(rt, q),
    }
}

fn sets(rt: &impl Print, trak: &[u8], i: u8) {
    part(rt, b"sps", i, track_video::sps(trak, i));
    judged(rt, b"sps_fault", i, track_video::sps_fault(trak, i));
    part(rt, b"pps", i, track_video::pps(trak, i));
    judged(rt, b"pps_fault", i, track_video::pps_fault(trak, i));
}

pub(crate) fn tell(rt: &impl Print, trak: &[u8]) {
    profile(rt, trak);
    sets(rt, trak, 0);
    sets(rt, trak, 1);
    sets(rt, trak, 30);
    sets(rt, trak, 255);
}
