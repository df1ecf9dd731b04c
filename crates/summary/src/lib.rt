#![tactic(auto, unfolding(numbers::specs::Field::when, numbers::specs::Field::field))]
// A track's summary: how long it lasts, its frame rate, and the width and height at which it is shown.
ghost use Rattle.std.specs.Prelude.{◌≡◌};
ghost use Rattle.summary.specs.Figures.{fixed_of, rate_of, summed_of};

use numbers::Refusal;

// The frame rate is in whole frames to a second; the duration is in microseconds.
#[derive(Clone, Copy)]
pub struct Summary {
    pub frame_rate: f64,
    pub width: f64,
    pub height: f64,
    pub micros: u64,
}

// A raw 16.16 number as a number. It has 32 bits, and the divisor is a power of 2, so nothing is lost.
pub fn fixed(raw: u32) -> f64
    ensures { result ≡ fixed_of raw }
{
    (raw as f64) / 65536.0
}

// The whole frames to a second, of so many in that many milliseconds.
pub fn rate(count: u32, millis: u64) -> f64
    ensures { result ≡ rate_of count millis }
{
    if millis == 0 {
        return 0.0;
    }
    let frames = (count as u64) * 1000 / millis;
    frames as f64
}

// The summary of a track with so many samples: its duration is in units of the timescale, its width and height are raw.
pub fn of(
    count: u32,
    duration: u64,
    timescale: u32,
    width: u32,
    height: u32,
) -> Result<Summary, Refusal>
    ensures { result ≡ summed_of count duration timescale width height }
{
    let micros = duration::micros(duration, timescale)?;
    let millis = micros / 1000;
    Ok(Summary {
        frame_rate: rate(count, millis),
        width: fixed(width),
        height: fixed(height),
        micros,
    })
}
