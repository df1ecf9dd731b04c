// Boxes of fields alone: each is read, its fields are told in their order, and it is written.
use crate::say;

const TKHD: u32 = 0x746b6864;

const MDHD: u32 = 0x6d646864;

const TREX: u32 = 0x74726578;

const MFHD: u32 = 0x6d666864;

const TFHD: u32 = 0x74666864;

const TFDT: u32 = 0x74666474;

fn tkhd_times(rt: &impl Print, b: tkhd::Tkhd) {
    say::numbers(
        rt,
        &[
            b.version as u64,
            b.flags as u64,
            b.creation_time,
            b.modification_time,
            b.track_id as u64,
            b.duration,
        ],
    );
}

fn tkhd_place(rt: &impl Print, b: tkhd::Tkhd) {
    say::numbers(
        rt,
        &[b.layer as u64, b.alternate_group as u64, b.volume as u64],
    );
}

fn tkhd_matrix(rt: &impl Print, b: tkhd::Tkhd) {
    say::three(rt, b.matrix_a, b.matrix_b, b.matrix_u);
    say::three(rt, b.matrix_c, b.matrix_d, b.matrix_v);
    say::three(rt, b.matrix_x, b.matrix_y, b.matrix_w);
}

fn tkhd(rt: &impl Print, part: &[u8], out: &mut [u8]) {
    match tkhd::read(part) {
        Err(q) => say::refused(rt, q),
        Ok(b) => {
            tkhd_times(rt, b);
            tkhd_place(rt, b);
            tkhd_matrix(rt, b);
            say::two(rt, b.width, b.height);
            say::canonical(rt, part, tkhd::KIND, tkhd::ROW, 0);
            let put = tkhd::write(b, out);
            say::written(rt, put, part, out);
        }
    }
}

fn mdhd(rt: &impl Print, part: &[u8], out: &mut [u8]) {
    match mdhd::read(part) {
        Err(q) => say::refused(rt, q),
        Ok(b) => {
            say::numbers(
                rt,
                &[
                    b.version as u64,
                    b.flags as u64,
                    b.creation_time,
                    b.modification_time,
                    b.timescale as u64,
                    b.duration,
                    b.language as u64,
                ],
            );
            say::canonical(rt, part, mdhd::KIND, say::whole(mdhd::ROW), 0);
            let put = mdhd::write(b, out);
            say::written(rt, put, part, out);
        }
    }
}

fn trex(rt: &impl Print, part: &[u8], out: &mut [u8]) {
    match trex::read(part) {
        Err(q) => say::refused(rt, q),
        Ok(b) => {
            say::numbers(
                rt,
                &[
                    b.version as u64,
                    b.flags as u64,
                    b.track_id as u64,
                    b.default_sample_description_index as u64,
                    b.default_sample_duration as u64,
                    b.default_sample_size as u64,
                    b.default_sample_flags as u64,
                ],
            );
            say::canonical(rt, part, trex::KIND, say::whole(trex::ROW), 0);
            let put = trex::write(b, out);
            say::written(rt, put, part, out);
        }
    }
}

fn mfhd(rt: &impl Print, part: &[u8], out: &mut [u8]) {
    match mfhd::read(part) {
        Err(q) => say::refused(rt, q),
        Ok(b) => {
            say::numbers(
                rt,
                &[b.version as u64, b.flags as u64, b.sequence_number as u64],
            );
            say::canonical(rt, part, mfhd::KIND, say::whole(mfhd::ROW), 0);
            let put = mfhd::write(b, out);
            say::written(rt, put, part, out);
        }
    }
}

fn tfhd(rt: &impl Print, part: &[u8], out: &mut [u8]) {
    match tfhd::read(part) {
        Err(q) => say::refused(rt, q),
        Ok(b) => {
            say::numbers(
                rt,
                &[
                    b.version as u64,
                    b.flags as u64,
                    b.track_id as u64,
                    b.base_data_offset,
                    b.sample_description_index as u64,
                    b.default_sample_duration as u64,
                    b.default_sample_size as u64,
                    b.default_sample_flags as u64,
                ],
            );
            say::canonical(rt, part, tfhd::KIND, say::whole(tfhd::ROW), 0);
            let put = tfhd::write(b, out);
            say::written(rt, put, part, out);
        }
    }
}

fn tfdt(rt: &impl Print, part: &[u8], out: &mut [u8]) {
    match tfdt::read(part) {
        Err(q) => say::refused(rt, q),
        Ok(b) => {
            say::numbers(
                rt,
                &[b.version as u64, b.flags as u64, b.base_media_decode_time],
            );
            say::canonical(rt, part, tfdt::KIND, say::whole(tfdt::ROW), 0);
            let put = tfdt::write(b, out);
            say::written(rt, put, part, out);
        }
    }
}

// Tells a box of one of these types, and answers whether it is one.
pub(crate) fn copy(rt: &impl Print, kind: u32, part: &[u8], out: &mut [u8]) -> bool {
    if kind == TKHD {
        tkhd(rt, part, out);
        return true;
    }
    if kind == MDHD {
        mdhd(rt, part, out);
        return true;
    }
    if kind == TREX {
        trex(rt, part, out);
        return true;
    }
    if kind == MFHD {
        mfhd(rt, part, out);
        return true;
    }
    if kind == TFHD {
        tfhd(rt, part, out);
        return true;
    }
    if kind == TFDT {
        tfdt(rt, part, out);
        return true;
    }
    false
}
