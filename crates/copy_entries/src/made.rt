// Questions of new sample entries: each is made by `fresh` and written with the box that it holds.
use crate::say;

// 'nmp4', 'navc', 'nvp9' and 'ntx3'.
const SOUND: u32 = 0x6e6d7034;

const AVC: u32 = 0x6e617663;

const VP9: u32 = 0x6e767039;

const TEXT: u32 = 0x6e747833;

// 'avc1' and 'vp09'.
const AVC1: u32 = 0x61766331;

const VP09: u32 = 0x76703039;

// What stands behind `from`.
fn behind(s: &[u8], from: usize) -> &[u8] {
    if s.len() < from {
        return &s[..0];
    }
    &s[from..]
}

// The configuration 7 has eight channels, each other one as many as its number says.
fn channels(configuration: u8) -> u16 {
    if configuration == 7 {
        8
    } else {
        configuration as u16
    }
}

fn streamed(rt: &impl Print, entry: mp4a::Mp4a, stream: esds::Esds, info: &[u8], out: &mut [u8]) {
    let mut child = [0u8; 4096];
    match esds_write::write(stream, &info[..0], info, &[2], &mut child) {
        Err(q) => say::refused(rt, q),
        Ok(n) => {
            let put = mp4a::write(entry, say::bytes_at(&child, 0, n), out);
            say::made(rt, put, out);
        }
    }
}

fn heard(rt: &impl Print, entry: mp4a::Mp4a, bitrate: u32, config: asc::Config, out: &mut [u8]) {
    let mut info = [0u8; 4096];
    match asc::write(config, &mut info) {
        Err(q) => say::refused(rt, q),
        Ok(n) => streamed(
            rt,
            entry,
            fresh::esds(bitrate),
            say::bytes_at(&info, 0, n),
            out,
        ),
    }
}

fn sampled(rt: &impl Print, frequency: u32, bitrate: u32, config: asc::Config, out: &mut [u8]) {
    match fresh::mp4a(channels(config.channels), frequency) {
        Err(q) => say::refused(rt, q),
        Ok(entry) => heard(rt, entry, bitrate, config, out),
    }
}

fn configured(
    rt: &impl Print,
    bitrate: u32,
    object: u8,
    index: u8,
    configuration: u8,
    out: &mut [u8],
) {
    match audio::frequencies::frequency(index) {
        Err(q) => say::refused(rt, q),
        Ok(frequency) => {
            match audio::channels::configuration(configuration) {
                Err(q) => say::refused(rt, q),
                Ok(c) => {
                    let config = asc::Config {
                        object_type: object,
                        frequency_index: index,
                        frequency: 0,
                        channels: c,
                    };
                    sampled(rt, frequency, bitrate, config, out);
                }
            }
        }
    }
}

// A bitrate in four bytes, an object type, an index of a frequency and a channel configuration.
fn sound(rt: &impl Print, part: &[u8], out: &mut [u8]) -> bool {
    let Ok(bitrate) = numbers::read::<u32>(part, 8) else {
        return false;
    };
    let Ok(code) = numbers::read::<u8>(part, 12) else {
        return false;
    };
    let Ok(index) = numbers::read::<u8>(part, 13) else {
        return false;
    };
    let Ok(configuration) = numbers::read::<u8>(part, 14) else {
        return false;
    };
    match audio::objects::object_type(code) {
        Err(q) => say::refused(rt, q),
        Ok(object) => configured(rt, bitrate, object, index, configuration, out),
    }
    true
}

fn shown(rt: &impl Print, entry: visual::Visual, kind: u32, child: &[u8], out: &mut [u8]) {
    let put = visual_write::write(entry, kind, child, out);
    say::made(rt, put, out);
}

fn coded(
    rt: &impl Print,
    entry: visual::Visual,
    avcc: avcc::Avcc,
    sps: &[u8],
    pps: &[u8],
    out: &mut [u8],
) {
    let mut child = [0u8; 4096];
    match avcc::write(avcc, sps, pps, &sps[..0], &mut child) {
        Err(q) => say::refused(rt, q),
        Ok(n) => shown(rt, entry, AVC1, say::bytes_at(&child, 0, n), out),
    }
}

// Each list has one set.
fn listed(
    rt: &impl Print,
    entry: visual::Visual,
    avcc: avcc::Avcc,
    sps: &[u8],
    pps: &[u8],
    out: &mut [u8],
) {
    let mut sequences = [0u8; 4096];
    let mut pictures = [0u8; 4096];
    match sets::put_set(&mut sequences, 0, sps) {
        Err(q) => say::refused(rt, q),
        Ok(n) => {
            match sets::put_set(&mut pictures, 0, pps) {
                Err(q) => say::refused(rt, q),
                Ok(m) => coded(
                    rt,
                    entry,
                    avcc,
                    say::bytes_at(&sequences, 0, n),
                    say::bytes_at(&pictures, 0, m),
                    out,
                ),
            }
        }
    }
}

fn profiled(rt: &impl Print, entry: visual::Visual, sps: &[u8], pps: &[u8], out: &mut [u8]) {
    match fresh::avcc(sps) {
        Err(q) => say::refused(rt, q),
        Ok(avcc) => listed(rt, entry, avcc, sps, pps, out),
    }
}

// A width, a height and the length of the sequence parameter set in two bytes each, that set, and a picture parameter set.
fn avc(rt: &impl Print, part: &[u8], out: &mut [u8]) -> bool {
    let Ok(width) = numbers::read::<u16>(part, 8) else {
        return false;
    };
    let Ok(height) = numbers::read::<u16>(part, 10) else {
        return false;
    };
    let Ok(length) = numbers::read::<u16>(part, 12) else {
        return false;
    };
    let n = length as usize;
    let entry = fresh::visual(width, height);
    profiled(
        rt,
        entry,
        say::bytes_at(part, 14, n),
        behind(part, 14 + n),
        out,
    );
    true
}

// A width and a height in two bytes each.
fn vp9(rt: &impl Print, part: &[u8], out: &mut [u8]) -> bool {
    let Ok(width) = numbers::read::<u16>(part, 8) else {
        return false;
    };
    let Ok(height) = numbers::read::<u16>(part, 10) else {
        return false;
    };
    let entry = fresh::visual(width, height);
    let mut child = [0u8; 4096];
    match vpcc_write::write(fresh::vpcc(), &part[..0], &mut child) {
        Err(q) => say::refused(rt, q),
        Ok(n) => shown(rt, entry, VP09, say::bytes_at(&child, 0, n), out),
    }
    true
}

fn text(rt: &impl Print, part: &[u8], out: &mut [u8]) {
    let put = tx3g_write::write(fresh::tx3g(), &part[..0], out);
    say::made(rt, put, out);
}

// Answers a question of one of these letters, and whether it was one that is whole.
pub(crate) fn tell(rt: &impl Print, kind: u32, part: &[u8], out: &mut [u8]) -> bool {
    if kind == SOUND {
        return sound(rt, part, out);
    }
    if kind == AVC {
        return avc(rt, part, out);
    }
    if kind == VP9 {
        return vp9(rt, part, out);
    }
    if kind == TEXT {
        text(rt, part, out);
        return true;
    }
    false
}
