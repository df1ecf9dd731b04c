// The esds of a sample entry: its fields are told in their order, and of its descriptors the DecoderConfig in brackets and
// the content of the SLConfig, where they are there.
use crate::say;
use decoderconfig::Config;
use esfields::Stream;

fn fields(rt: &impl Print, stream: Stream, url: &[u8]) {
    say::numbers(
        rt,
        &[
            stream.id as u64,
            stream.flags as u64,
            stream.depends_on as u64,
        ],
    );
    say::bytes(rt, url);
    say::one(rt, stream.ocr_id as u32);
}

fn decoder(rt: &impl Print, config: Config, info: &[u8]) {
    say::open(rt);
    say::two(
        rt,
        config.object_type_indication as u32,
        config.stream as u32,
    );
    say::numbers(
        rt,
        &[
            config.buffer_size as u64,
            config.max_bitrate as u64,
            config.avg_bitrate as u64,
        ],
    );
    if config.has_info {
        say::bytes(rt, info);
    }
    say::close(rt);
}

// Tells a box of this type, and whether it was one.
pub(crate) fn tell(rt: &impl Print, kind: u32, part: &[u8], out: &mut [u8]) -> bool {
    if kind != esds::KIND {
        return false;
    }
    match esds::read(part) {
        Err(q) => say::refused(rt, q),
        Ok((b, places)) => {
            say::one(rt, b.flags);
            fields(rt, b.stream, esds_parts::url(part));
            let configured = b.decoder;
            match configured {
                None => say::text(rt, b""),
                Some(config) => decoder(rt, config, esds_parts::info(part)),
            }
            let sl = esds_parts::sl(part);
            if b.has_sl {
                say::bytes(rt, sl);
            }
            let put = esds_write::write(b, esds_parts::url(part), esds_parts::info(part), sl, out);
            say::written(rt, put, part, out);
        }
    }
    true
}
