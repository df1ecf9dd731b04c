// Sample entries, and the boxes in them: each is read, its fields are told in their order, and it is written.
use crate::say;

// 'avc1' and 'vp09'.
const AVC1: u32 = 0x61766331;

const VP09: u32 = 0x76703039;

fn mp4a(rt: &impl Print, part: &[u8], out: &mut [u8]) {
    match mp4a::read(part) {
        Err(q) => say::refused(rt, q),
        Ok(b) => {
            say::numbers(
                rt,
                &[
                    b.data_reference_index as u64,
                    b.channelcount as u64,
                    b.samplesize as u64,
                    b.samplerate as u64,
                ],
            );
            let children = mp4a::children(part);
            say::bytes(rt, children);
            let put = mp4a::write(b, children, out);
            say::written(rt, put, part, out);
        }
    }
}

fn bytes4(rt: &impl Print, a: u8, b: u8, c: u8, d: u8) {
    say::numbers(rt, &[a as u64, b as u64, c as u64, d as u64]);
}

fn halves4(rt: &impl Print, a: u16, b: u16, c: u16, d: u16) {
    say::numbers(rt, &[a as u64, b as u64, c as u64, d as u64]);
}

fn justified(rt: &impl Print, reference: u16, flags: u32, horizontal: u8, vertical: u8) {
    say::numbers(
        rt,
        &[
            reference as u64,
            flags as u64,
            horizontal as u64,
            vertical as u64,
        ],
    );
}

fn style(rt: &impl Print, start: u16, end: u16, font: u16, face: u8, size: u8) {
    say::numbers(
        rt,
        &[
            start as u64,
            end as u64,
            font as u64,
            face as u64,
            size as u64,
        ],
    );
}

fn tx3g(rt: &impl Print, part: &[u8], out: &mut [u8]) {
    match tx3g::read(part) {
        Err(q) => say::refused(rt, q),
        Ok(b) => {
            justified(
                rt,
                b.data_reference_index,
                b.display_flags,
                b.horizontal_justification,
                b.vertical_justification,
            );
            bytes4(
                rt,
                b.background_red,
                b.background_green,
                b.background_blue,
                b.background_alpha,
            );
            halves4(rt, b.top, b.left, b.bottom, b.right);
            style(
                rt,
                b.start_char,
                b.end_char,
                b.font_id,
                b.face_style_flags,
                b.font_size,
            );
            bytes4(rt, b.text_red, b.text_green, b.text_blue, b.text_alpha);
            let rest = tx3g_parts::rest(part);
            say::bytes(rt, rest);
            let put = tx3g_write::write(b, rest, out);
            say::written(rt, put, part, out);
        }
    }
}

fn flag(rt: &impl Print, b: bool) {
    if b {
        say::one(rt, 1);
    } else {
        say::one(rt, 0);
    }
}

fn vpcc(rt: &impl Print, part: &[u8], out: &mut [u8]) {
    match vpcc::read(part) {
        Err(q) => say::refused(rt, q),
        Ok((b, place)) => {
            say::numbers(
                rt,
                &[
                    b.version as u64,
                    b.flags as u64,
                    b.profile as u64,
                    b.level as u64,
                ],
            );
            say::two(
                rt,
                vpformat::bit_depth(b.sampling) as u32,
                vpformat::chroma(b.sampling) as u32,
            );
            flag(rt, vpformat::full_range(b.sampling));
            say::numbers(
                rt,
                &[
                    b.colour_primaries as u64,
                    b.transfer_characteristics as u64,
                    b.matrix_coefficients as u64,
                    b.codec_initialization_data_size as u64,
                ],
            );
            let data = vpcc::initialization(part);
            say::bytes(rt, data);
            let put = vpcc_write::write(b, data, out);
            say::written(rt, put, part, out);
        }
    }
}

// The size of a picture and its resolutions, and how many frames a sample has.
fn picture(
    rt: &impl Print,
    reference: u16,
    width: u16,
    height: u16,
    across: u32,
    down: u32,
    frames: u16,
) {
    say::numbers(
        rt,
        &[
            reference as u64,
            width as u64,
            height as u64,
            across as u64,
            down as u64,
            frames as u64,
        ],
    );
}

fn visual(rt: &impl Print, part: &[u8], kind: u32, out: &mut [u8]) {
    match visual::read(part, kind) {
        Err(q) => say::refused(rt, q),
        Ok(b) => {
            picture(
                rt,
                b.data_reference_index,
                b.width,
                b.height,
                b.horizresolution,
                b.vertresolution,
                b.frame_count,
            );
            say::eights(rt, b.name0, b.name1, b.name2, b.name3);
            say::one(rt, b.depth as u32);
            let children = visual_parts::children(part, kind);
            say::bytes(rt, children);
            let put = visual_write::write(b, kind, children, out);
            say::written(rt, put, part, out);
        }
    }
}

// The parameter sets of a list, each in brackets.
fn sequence_sets(rt: &impl Print, part: &[u8], count: u8) {
    for i in 0..count {
        say::open(rt);
        say::bytes(rt, avcc_parts::sps(part, i));
        say::close(rt);
    }
}

fn picture_sets(rt: &impl Print, part: &[u8], count: u8) {
    for i in 0..count {
        say::open(rt);
        say::bytes(rt, avcc_parts::pps(part, i));
        say::close(rt);
    }
}

fn avcc(rt: &impl Print, part: &[u8], out: &mut [u8]) {
    match avcc::read(part) {
        Err(q) => say::refused(rt, q),
        Ok((b, _)) => {
            bytes4(rt, b.profile, b.compatibility, b.level, b.length_size);
            say::one(rt, b.sps as u32);
            sequence_sets(rt, part, b.sps);
            say::one(rt, b.pps as u32);
            picture_sets(rt, part, b.pps);
            let extension = avcc_parts::extension(part);
            say::bytes(rt, extension);
            let sequences = avcc_parts::sps_list(part);
            let pictures = avcc_parts::pps_list(part);
            let put = avcc::write(b, sequences, pictures, extension, out);
            say::written(rt, put, part, out);
        }
    }
}

// Tells a box of one of these types, and whether it was one.
pub(crate) fn tell(rt: &impl Print, kind: u32, part: &[u8], out: &mut [u8]) -> bool {
    if (kind == AVC1) | (kind == VP09) {
        visual(rt, part, kind, out);
        return true;
    }
    if kind == avcc::KIND {
        avcc(rt, part, out);
        return true;
    }
    if kind == mp4a::KIND {
        mp4a(rt, part, out);
        return true;
    }
    if kind == tx3g::KIND {
        tx3g(rt, part, out);
        return true;
    }
    if kind == vpcc::KIND {
        vpcc(rt, part, out);
        return true;
    }
    false
}
