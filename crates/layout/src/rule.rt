// What is asked of a field, once the version and the flags are known.
ghost use Rattle.std.specs.Prelude.{◌≡◌, ◌-◌, ◌≤◌, ◌^◌, min};
ghost use Rattle.layout.specs.Rule.{plain, is_set, rule_of, refusal_of};

use crate::Field;
use numbers::Refusal;

#[derive(Clone, Copy)]
pub struct Rule {
    pub width: usize,
    pub low: u64,
    pub high: u64,
    pub kept: bool,
    pub fixed: u64,
    pub version: bool,
    pub flags: bool,
}

impl Rule {
    /// The refusal of a value outside of the field's range that stands at `at`: 7 of a version, else 8.
    pub fn refusal(self, at: usize) -> Refusal
        ensures { result ≡ refusal_of self at }
    {
        if self.version {
            Refusal::Version(at)
        } else {
            Refusal::Value(at)
        }
    }
}

// The largest number of each width.
const MOST: [u64; 9] = [
    0,
    0xff,
    0xffff,
    0xff_ffff,
    0xffff_ffff,
    0xff_ffff_ffff,
    0xffff_ffff_ffff,
    0xff_ffff_ffff_ffff,
    0xffff_ffff_ffff_ffff,
];

fn most(w: usize) -> u64
    requires { w ≤ 8 }
    ensures { result ≡ 256 ^ w - 1 }
{
    MOST[w]
}

fn cap(w: u8) -> usize
    ensures { result ≡ min w 8 }
{
    if 8 < w { 8 } else { w as usize }
}

fn any(w: u8) -> Rule
    ensures { result ≡ plain (min w 8) }
{
    let n = cap(w);
    Rule {
        width: n,
        low: 0,
        high: most(n),
        kept: true,
        fixed: 0,
        version: false,
        flags: false,
    }
}

fn is_set(flags: u64, bit: u32) -> bool
    ensures { result ≡ is_set flags bit }
{
    if bit == 0 {
        return false;
    }
    flags / (bit as u64) % 2 == 1
}

// The rule of a field.
pub fn rule_of(f: Field, version: u64, flags: u64) -> Rule
    ensures { result ≡ rule_of f version flags }
{
    match f {
        Field::Number(w) => any(w),
        Field::Reserved(w, c) => {
            let width = cap(w);
            Rule {
                width,
                low: 0,
                high: most(width),
                kept: false,
                fixed: c,
                version: false,
                flags: false,
            }
        }
        Field::Wide(a, b) => { if version == 1 { any(b) } else { any(a) } }
        Field::Optional(w, bit) => { if is_set(flags, bit) { any(w) } else { any(0) } }
        Field::Least(w, n) => {
            let width = cap(w);
            Rule {
                width,
                low: n,
                high: most(width),
                kept: true,
                fixed: 0,
                version: false,
                flags: false,
            }
        }
        Field::Version(lo, hi) => Rule {
            width: 1,
            low: lo as u64,
            high: hi as u64,
            kept: true,
            fixed: 0,
            version: true,
            flags: false,
        },
        Field::Flags => Rule {
            width: 3,
            low: 0,
            high: 0xff_ffff,
            kept: true,
            fixed: 0,
            version: false,
            flags: true,
        },
        Field::Nothing => Rule {
            width: 0,
            low: 0,
            high: 0,
            kept: false,
            fixed: 0,
            version: false,
            flags: false,
        },
    }
}
