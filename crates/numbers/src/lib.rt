#![tactic(auto, unfolding(crate::specs::Field::when, crate::specs::Field::field))]
// Numbers in a slice of bytes, the highest byte first (ISO/IEC 14496-12, 4.2).
// Every reader answers for every position: the number, or that the bytes end in it.
ghost use Rattle.std.specs.Prelude.{◌≡◌, ◌+◌, ◌*◌, ◌^◌, ◌≤◌, ◌<◌, ℕ, length, Ok, Err, OnOk};
ghost use Rattle.numbers.specs.Number.{be};
ghost use Rattle.numbers.specs.Field.{field, number_of};
ghost use Rattle.numbers.specs.Refusals.{code, detail, position, placed_at, moved};

/// Why a file, a box or a value is refused. A position is the first byte of the field or box at fault.
#[derive(Clone, Copy, Debug, PartialEq, Eq)]
pub enum Refusal {
    /// 1: the bytes end in what begins here.
    Cut(usize),
    /// 2: the size of the box that begins here is wrong.
    Size(usize),
    /// 3: the box that begins here lies too deep.
    Depth(usize),
    /// 4: another limit is passed here.
    Limit(usize),
    /// 5: a box of this type is needed and missing.
    Missing(u32),
    /// 6: the box that begins here may stand only once.
    Twice(usize),
    /// 7: the version that stands here is unknown.
    Version(usize),
    /// 8: the value that stands here is not allowed.
    Value(usize),
    /// 9: a sum or a product does not fit.
    Overflow,
    /// 10: the file has both fragments and samples in its moov.
    Mixed,
    /// 11: there is no sample with this number.
    NoSample(usize),
    /// 12: the output is too small: this length is needed.
    TooSmall(usize),
    /// 13: a value can not be written.
    Unwritable,
}

impl Refusal {
    /// The number that callers in other languages get.
    pub fn code(self) -> u32
        ensures { result ≡ code self }
    {
        match self {
            Refusal::Cut(_) => 1,
            Refusal::Size(_) => 2,
            Refusal::Depth(_) => 3,
            Refusal::Limit(_) => 4,
            Refusal::Missing(_) => 5,
            Refusal::Twice(_) => 6,
            Refusal::Version(_) => 7,
            Refusal::Value(_) => 8,
            Refusal::Overflow => 9,
            Refusal::Mixed => 10,
            Refusal::NoSample(_) => 11,
            Refusal::TooSmall(_) => 12,
            Refusal::Unwritable => 13,
        }
    }

    /// What is told beside the number: the position, the four letters, the sample's number or the length; else 0.
    pub fn detail(self) -> usize
        ensures { result ≡ detail self }
    {
        match self {
            Refusal::Cut(at)
            | Refusal::Size(at)
            | Refusal::Depth(at)
            | Refusal::Limit(at)
            | Refusal::Twice(at)
            | Refusal::Version(at)
            | Refusal::Value(at) => at,
            Refusal::Missing(kind) => kind as usize,
            Refusal::NoSample(number) => number,
            Refusal::TooSmall(length) => length,
            Refusal::Overflow | Refusal::Mixed | Refusal::Unwritable => 0,
        }
    }

    // The position of the first byte at fault, where there is one.
    fn position(self) -> Option<usize>
        ensures { result ≡ position self }
    {
        match self {
            Refusal::Cut(at)
            | Refusal::Size(at)
            | Refusal::Depth(at)
            | Refusal::Limit(at)
            | Refusal::Twice(at)
            | Refusal::Version(at)
            | Refusal::Value(at) => Some(at),
            Refusal::Missing(_)
            | Refusal::Overflow
            | Refusal::Mixed
            | Refusal::NoSample(_)
            | Refusal::TooSmall(_)
            | Refusal::Unwritable => None,
        }
    }

    // The same at another position.
    fn placed_at(self, at: usize) -> Refusal
        ensures { result ≡ placed_at at self }
    {
        match self {
            Refusal::Cut(_) => Refusal::Cut(at),
            Refusal::Size(_) => Refusal::Size(at),
            Refusal::Depth(_) => Refusal::Depth(at),
            Refusal::Limit(_) => Refusal::Limit(at),
            Refusal::Twice(_) => Refusal::Twice(at),
            Refusal::Version(_) => Refusal::Version(at),
            Refusal::Value(_) => Refusal::Value(at),
            Refusal::Missing(_)
            | Refusal::Overflow
            | Refusal::Mixed
            | Refusal::NoSample(_)
            | Refusal::TooSmall(_)
            | Refusal::Unwritable => self,
        }
    }

    /// The refusal of a part, told of the whole in which the part begins at `start`. A position that does not fit is 9.
    pub fn moved(self, start: usize) -> Refusal
        ensures { result ≡ moved start self }
    {
        let Some(at) = self.position() else {
            return self;
        };
        let Some(sum) = start.checked_add(at) else {
            return Refusal::Overflow;
        };
        self.placed_at(sum)
    }
}

/// A number of a fixed count of bytes.
pub trait Number: Copy {
    const WIDTH: usize;

    ghost WIDTH: { ℕ };

    // The value that a number of WIDTH bytes is, and the number that a value is.
    ghost of_number: { ℕ → Self };

    ghost number_of: { Self → ℕ };

    /// The number at `at`.
    fn read(s: &[u8], at: usize) -> Result<Self, Refusal>
        ensures { result ≡ field Err WIDTH s.now at (λ n. Ok (of_number n)) };

    /// The value as a number, which need not have WIDTH bytes.
    fn number(self) -> u64
        ensures { result ≡ number_of self };
}

// There are this many bytes at `at`.
fn whole(s: &[u8], at: usize, width: usize) -> Result<(), Refusal>
    ensures value { result ≡ field Err width s.now at (λ n. Ok tt) }
    ensures fits { OnOk result (at + width ≤ length s.now) }
{
    // No bytes are no number past the end.
    if s.len() < at || s.len() - at < width {
        return Err(Refusal::Cut(at));
    }
    Ok(())
}

impl Number for u8 {
    const WIDTH: usize = 1;

    ghost WIDTH = { 1 };

    ghost of_number = { λ n. n };

    ghost number_of = { λ n. n };

    #[tactic(auto, unfolding(crate::specs::Field::when, crate::specs::Field::field, crate::specs::Number::be))]
    fn read(s: &[u8], at: usize) -> Result<u8, Refusal> {
        whole(s, at, 1)?;
        Ok(s[at])
    }

    fn number(self) -> u64 {
        u64::from(self)
    }
}

impl Number for u16 {
    const WIDTH: usize = 2;

    ghost WIDTH = { 2 };

    ghost of_number = { λ n. n };

    ghost number_of = { λ n. n };

    #[tactic(auto, unfolding(crate::specs::Field::when, crate::specs::Field::field, crate::specs::Number::be))]
    fn read(s: &[u8], at: usize) -> Result<u16, Refusal> {
        whole(s, at, 2)?;
        Ok(u16::from_be_bytes([s[at], s[at + 1]]))
    }

    fn number(self) -> u64 {
        u64::from(self)
    }
}

/// A number of three bytes: the lower three of these.
#[derive(Clone, Copy, Debug, PartialEq, Eq)]
pub struct U24(pub u32);

impl Number for U24 {
    const WIDTH: usize = 3;

    ghost WIDTH = { 3 };

    ghost of_number = { λ n. record { 0 = n } };

    ghost number_of = { λ x. x.0 };

    #[tactic(auto, unfolding(crate::specs::Field::when, crate::specs::Field::field, crate::specs::Number::be))]
    fn read(s: &[u8], at: usize) -> Result<U24, Refusal> {
        whole(s, at, 3)?;
        Ok(U24(u32::from_be_bytes([0, s[at], s[at + 1], s[at + 2]])))
    }

    fn number(self) -> u64 {
        u64::from(self.0)
    }
}

impl Number for u32 {
    const WIDTH: usize = 4;

    ghost WIDTH = { 4 };

    ghost of_number = { λ n. n };

    ghost number_of = { λ n. n };

    #[tactic(auto, unfolding(crate::specs::Field::when, crate::specs::Field::field, crate::specs::Number::be))]
    fn read(s: &[u8], at: usize) -> Result<u32, Refusal> {
        whole(s, at, 4)?;
        Ok(u32::from_be_bytes([s[at], s[at + 1], s[at + 2], s[at + 3]]))
    }

    fn number(self) -> u64 {
        u64::from(self)
    }
}

impl Number for u64 {
    const WIDTH: usize = 8;

    ghost WIDTH = { 8 };

    ghost of_number = { λ n. n };

    ghost number_of = { λ n. n };

    #[tactic(auto, unfolding(crate::specs::Field::when, crate::specs::Field::field, crate::specs::Number::be))]
    fn read(s: &[u8], at: usize) -> Result<u64, Refusal> {
        whole(s, at, 8)?;
        Ok(u64::from_be_bytes([
            s[at],
            s[at + 1],
            s[at + 2],
            s[at + 3],
            s[at + 4],
            s[at + 5],
            s[at + 6],
            s[at + 7],
        ]))
    }

    fn number(self) -> u64 {
        self
    }
}

/// The number at `at`, as wide as its type.
pub fn read<T: Number>(s: &[u8], at: usize) -> Result<T, Refusal>
    ensures { result ≡ field Err T.WIDTH s.now at (λ n. Ok (T.of_number n)) }
{
    T::read(s, at)
}

/// The number in w bytes. One of more than 8 bytes is refused: it need not fit.
#[tactic(auto, unfolding(crate::specs::Field::when, crate::specs::Field::field, crate::specs::Number::be))]
pub fn number_at(s: &[u8], at: usize, w: usize) -> Result<u64, Refusal>
    ensures { result ≡ number_of w s.now at }
{
    if 8 < w {
        return Err(Refusal::Overflow);
    }
    whole(s, at, w)?;
    let mut n = 0u64;
    for byte in &s[at..at + w] {
        n = n * 256 + u64::from(*byte);
    }
    Ok(n)
}
