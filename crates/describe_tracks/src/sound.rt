// What an audio track tells.
use crate::say;

pub(crate) fn tell(rt: &impl Print, trak: &[u8]) {
    say::one(rt, b"audio_profile", track_audio::profile(trak));
    say::four(rt, b"frequency", track_audio::frequency(trak));
    say::one(rt, b"channels", track_audio::channels(trak));
    say::four(rt, b"audio_bitrate", track_audio::bitrate(trak));
}
