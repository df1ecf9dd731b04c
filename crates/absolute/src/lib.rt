#![tactic(auto)]
// How far a signed number is from 0, for those who print it: -n need not fit.
ghost use Rattle.std.specs.Prelude.{◌≡◌};
ghost use Rattle.absolute.specs.Absolute.{absolute_of};

// The number without its sign.
pub fn of(n: i64) -> u64
    ensures { result ≡ absolute_of n }
{
    if n < 0 {
        let d = -1 - n;
        return (d as u64) + 1;
    }
    n as u64
}
