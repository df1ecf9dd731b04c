// Questions of descriptors, and of the audio configurations in them.
use crate::say;
use numbers::U24;

// 'desc', 'dput', 'asc ' and 'aput'.
const HEAD: u32 = 0x64657363;

const PUT: u32 = 0x64707574;

const AUDIO: u32 = 0x61736320;

const PUT_AUDIO: u32 = 0x61707574;

// What stands behind the letters.
fn asked(part: &[u8]) -> &[u8] {
    if part.len() < 8 {
        return &part[..0];
    }
    &part[8..]
}

fn head(rt: &impl Print, s: &[u8]) {
    match descriptor::head_at(s, 0) {
        Err(q) => say::refused(rt, q),
        Ok(h) => say::numbers(rt, &[h.tag as u64, h.from as u64, h.to as u64]),
    }
}

// A tag and a length in four bytes.
fn put_head(rt: &impl Print, part: &[u8], out: &mut [u8]) {
    let Ok(tag) = numbers::read::<u8>(part, 8) else {
        return;
    };
    let Ok(length) = numbers::read::<u32>(part, 9) else {
        return;
    };
    let put = descriptor_write::put_head(out, 0, tag, length);
    say::made(rt, put, out);
}

fn audio(rt: &impl Print, s: &[u8]) {
    match asc::read(s) {
        Err(q) => say::refused(rt, q),
        Ok(c) => {
            say::two(rt, c.object_type as u32, c.frequency_index as u32);
            say::two(rt, c.frequency, c.channels as u32);
        }
    }
}

// An object type, an index, a frequency in three bytes, and channels.
fn put_audio(rt: &impl Print, part: &[u8], out: &mut [u8]) {
    let Ok(object_type) = numbers::read::<u8>(part, 8) else {
        return;
    };
    let Ok(frequency_index) = numbers::read::<u8>(part, 9) else {
        return;
    };
    let Ok(U24(frequency)) = numbers::read(part, 10) else {
        return;
    };
    let Ok(channels) = numbers::read::<u8>(part, 13) else {
        return;
    };
    let config = asc::Config {
        object_type,
        frequency_index,
        frequency,
        channels,
    };
    let put = asc::write(config, out);
    say::made(rt, put, out);
}

// Answers a question of one of these letters, and whether it was one.
pub(crate) fn tell(rt: &impl Print, kind: u32, part: &[u8], out: &mut [u8]) -> bool {
    if kind == HEAD {
        head(rt, asked(part));
        return true;
    }
    if kind == PUT {
        put_head(rt, part, out);
        return true;
    }
    if kind == AUDIO {
        audio(rt, asked(part));
        return true;
    }
    if kind == PUT_AUDIO {
        put_audio(rt, part, out);
        return true;
    }
    false
}
