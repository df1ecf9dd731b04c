#![tactic(auto, unfolding(numbers::specs::Field::when, numbers::specs::Field::field))]
// How far a fragment begins after the time at which it is due, or before it.
ghost use Rattle.std.specs.Prelude.{◌≡◌};
ghost use Rattle.gaps.specs.Gaps.{gap_of, behind};

use samples::TIME_BOUND;

// The largest number.
const LAST: u64 = 0xFFFF_FFFF_FFFF_FFFF;

// So many below 0.
fn before_it(back: u64) -> Option<i64>
    ensures { result ≡ behind back }
{
    if back == 0 {
        return Some(0);
    }
    if TIME_BOUND < back {
        return None;
    }
    let past = back - 1;
    Some(-1 - (past as i64))
}

// The gap of a fragment at that time, behind one of the same track that began at `before` and lasts so long.
pub fn between(before: u64, lasts: u64, time: u64) -> Option<i64>
    ensures { result ≡ gap_of before lasts time }
{
    if TIME_BOUND <= before {
        return None;
    }
    if TIME_BOUND <= time {
        return None;
    }
    if LAST - before < lasts {
        return None;
    }
    let due = before + lasts;
    if due <= time {
        let ahead = time - due;
        return Some(ahead as i64);
    }
    before_it(due - time)
}
