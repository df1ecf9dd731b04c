#![tactic(auto, unfolding(numbers::specs::Field::when, numbers::specs::Field::field))]
// What a run of samples begins with (ISO/IEC 14496-12, 8.8.7 and 8.8.8), from the boxes that tell of it: the base of its
// data offset, where its data begin, its time, and the values of samples that do not say their own.
ghost use Rattle.std.specs.Prelude.{◌≡◌};
ghost use Rattle.runstarts.specs.Make.{base_of, start_of, placed, make_of};

use numbers::Refusal;
use runs::Run;
use samples::{LAST, TIME_BOUND};
use tfdt::Tfdt;
use tfhd::Tfhd;
use trex::Trex;
use trun::Trun;

// The flags of tfhd.
const BASE_BIT: u32 = 0x1;

const DEFAULT_DURATION_BIT: u32 = 0x8;

const DEFAULT_SIZE_BIT: u32 = 0x10;

const DEFAULT_FLAGS_BIT: u32 = 0x20;

const MOOF_BIT: u32 = 0x20000;

// The flag of trun.
const DATA_OFFSET_BIT: u32 = 0x1;

// What a traf's data offsets count from: tfhd's own base, else the moof's start, where tfhd says so or the traf is the
// first of its moof, else the end of the traf before (A38).
pub fn base(tfhd: Tfhd, moof: u64, first: bool, previous: u64) -> u64
    ensures { result ≡ base_of tfhd moof first previous }
{
    if bits::is_set(tfhd.flags, BASE_BIT) {
        return tfhd.base_data_offset;
    }
    if bits::is_set(tfhd.flags, MOOF_BIT) {
        return moof;
    }
    if first { moof } else { previous }
}

// A base and the 32 bits of a signed offset together.
fn moved(base: u64, offset: u32) -> Option<u64>
    ensures { result ≡ placed base offset }
{
    if offset < 0x8000_0000 {
        let ahead = offset as u64;
        if LAST - base < ahead {
            return None;
        }
        return Some(base + ahead);
    }
    let back = 0x1_0000_0000 - (offset as u64);
    if base < back {
        return None;
    }
    Some(base - back)
}

// Where the run's data begin: at the base, or as far from it as the trun says.
fn start_of(trun: Trun, base: u64) -> Option<u64>
    ensures { result ≡ start_of trun base }
{
    if bits::is_set(trun.flags, DATA_OFFSET_BIT) {
        return moved(base, trun.data_offset);
    }
    Some(base)
}

// The run of a traf, whose trun's entries begin at `at` in the file. Overflow where its data begin outside of the file's
// positions, or its time is 2^63 or more (A13).
pub fn make(
    tfhd: Tfhd,
    trex: Trex,
    tfdt: Tfdt,
    trun: Trun,
    at: usize,
    base: u64,
) -> Result<Run, Refusal>
    ensures { result ≡ make_of tfhd trex tfdt trun at base }
{
    let time = tfdt.base_media_decode_time;
    if TIME_BOUND <= time {
        return Err(Refusal::Overflow);
    }
    let Some(start) = start_of(trun, base) else {
        return Err(Refusal::Overflow);
    };
    let set = tfhd.flags;
    let duration = bits::chosen(
        set,
        DEFAULT_DURATION_BIT,
        tfhd.default_sample_duration,
        trex.default_sample_duration,
    );
    let size = bits::chosen(
        set,
        DEFAULT_SIZE_BIT,
        tfhd.default_sample_size,
        trex.default_sample_size,
    );
    let flags = bits::chosen(
        set,
        DEFAULT_FLAGS_BIT,
        tfhd.default_sample_flags,
        trex.default_sample_flags,
    );
    Ok(Run {
        track: tfhd.track_id,
        start,
        time,
        at,
        trun,
        duration,
        size,
        flags,
    })
}
