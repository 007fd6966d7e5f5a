// Numbers: digits at a place of a text, their value where it fits 64 bits, whole numbers, their residues, and ranges. The place is asked to be
// within the text, as in `bytes`.
ghost use Rattle.std.specs.Prelude.{◌≡◌, suc, ◌+◌, ◌-◌, ◌*◌, ◌%◌, ◌^◌, ◌≤◌, ◌<◌, true, length, take, drop, pos, nat_abs, None, MatchOption};
ghost use Rattle.text_lexical.specs.Bytes.{every};
ghost use Rattle.text_lexical.specs.Promised.{base_of, digit_of, is_digit_of, digits_at, fitting, whole_meant, whole_for, Reduced, range_meant, below_zero, IsRange};
ghost use Rattle.text_lexical.specs.Numbers.{value_of, minus, is_negative, lies_in};

// The radix by which digits are read.
#[derive(Clone, Copy)]
pub enum Radix {
    Binary = 2,
    Decimal = 10,
    Hex = 16,
}

// Digits from a place on: their value, unless it does not fit 64 bits, and the place after them.
#[derive(Clone, Copy)]
pub struct Digits {
    pub value: Option<u64>,
    pub end: usize,
}

// A whole number by its sign and its magnitude. `Negative(0)` means 0 too, but what is read or decoded is settled: its 0 has no sign. No type of
// 64 bits has both 2^64 - 1 and -2^63, and one of 128, by its alignment, would make each instruction a third larger. The sign is no `bool`
// beside the magnitude: a number is copied at every line, and the padding after a `bool` would be copied in pieces.
#[derive(Clone, Copy)]
pub enum Whole {
    NotNegative(u64),
    Negative(u64),
}

impl Default for Whole {
    fn default() -> Whole
        ensures { result ≡ whole_for (pos 0) }
    {
        Whole::NotNegative(0)
    }
}

impl Radix {
    // The one place where the enum is read as a number. As a `From` it would be public, for two callers in this file.
    fn base(self) -> u32
        ensures { result ≡ base_of self }
    {
        self as u32
    }

    // The value of a digit of the radix.
    fn digit(self, b: u8) -> Option<u32>
        ensures { result ≡ digit_of self b }
    {
        char::from(b).to_digit(self.base())
    }
}

// The value of a decimal digit, as a byte: so are the numbers of registers, in whose names digits stand.
pub(crate) fn decimal(b: u8) -> Option<u8>
    ensures { result ≡ digit_of Radix.Decimal b }
{
    let digit = Radix::Decimal.digit(b)?;
    Some(digit as u8)
}

// The value of digits with one more, where it fits: a product that is tested and a sum, without a division.
fn with_digit(value: Option<u64>, base: u32, digit: u32) -> Option<u64>
    ensures { MatchOption value (result ≡ None) (λ v. result ≡ fitting (v * base + digit)) }
{
    value?
        .checked_mul(u64::from(base))?
        .checked_add(u64::from(digit))
}

// The digits of a radix from `begin` on where the value of those before `at` does not fit: only their end is left to find.
fn too_large(text: &[u8], begin: usize, at: usize, radix: Radix) -> Digits
    requires at_in_text { (begin ≤ at) × (at ≤ length text.now) }
    requires all_digits { every (is_digit_of radix) (take (at - begin) (drop begin text.now)) ≡ true }
    requires large { None ≡ fitting (value_of (base_of radix) (take (at - begin) (drop begin text.now))) }
    ensures { result ≡ digits_at text.now begin radix }
{
    for end in at..text.len() {
        let Some(_) = radix.digit(text[end]) else {
            return Digits { value: None, end };
        };
    }
    Digits {
        value: None,
        end: text.len(),
    }
}

// The digits of a radix from `begin` on, the highest first, in one pass. It is compiled in line, once for each radix, and leaves where a value is
// too large: with a base that is known, a digit that fits takes a shift or two sums, and no choice between values is carried to the next.
#[inline(always)]
fn digits_of(text: &[u8], begin: usize, radix: Radix) -> Digits
    requires { begin ≤ length text.now }
    ensures { result ≡ digits_at text.now begin radix }
{
    let mut value = 0;
    for end in begin..text.len() {
        let Some(digit) = radix.digit(text[end]) else {
            return Digits {
                value: Some(value),
                end,
            };
        };
        let Some(more) = with_digit(Some(value), radix.base(), digit) else {
            return too_large(text, begin, end + 1, radix);
        };
        value = more;
    }
    Digits {
        value: Some(value),
        end: text.len(),
    }
}

// The digits of a radix from `begin` on.
pub fn digits_at(text: &[u8], begin: usize, radix: Radix) -> Digits
    requires { begin ≤ length text.now }
    ensures { result ≡ digits_at text.now begin radix }
{
    match radix {
        Radix::Binary => digits_of(text, begin, Radix::Binary),
        Radix::Decimal => digits_of(text, begin, Radix::Decimal),
        Radix::Hex => digits_of(text, begin, Radix::Hex),
    }
}

// What a number leaves modulo `most` + 1, which may be 2^64. Most numbers are not above `most`, and cost no division.
fn wrapped(n: u64, most: u64) -> u64
    ensures { result ≡ n % suc most }
{
    if n <= most {
        return n;
    }
    n % (most + 1)
}

impl Whole {
    // A number that is spelled with `-`. -0 is 0, which has no sign.
    #[tactic(auto, using(crate::proofs::Numbers::whole_minus), unfolding(crate::specs::Numbers::minus))]
    pub fn minus(magnitude: u64) -> Whole
        ensures { result ≡ whole_for (minus magnitude) }
    {
        match magnitude {
            0 => Whole::NotNegative(0),
            _ => Whole::Negative(magnitude),
        }
    }

    // Whether the number is below 0, as no 0 is, whatever its sign.
    #[tactic(auto, using(crate::proofs::Numbers::negative_minus), unfolding(crate::specs::Numbers::is_negative))]
    pub fn is_negative(self) -> bool
        ensures { result ≡ is_negative (whole_meant self) }
    {
        match self {
            Whole::NotNegative(_) => false,
            Whole::Negative(magnitude) => 0 < magnitude,
        }
    }

    // The number without its sign.
    #[tactic(auto, using(crate::proofs::Numbers::abs_minus))]
    pub fn magnitude(self) -> u64
        ensures { result ≡ nat_abs (whole_meant self) }
    {
        match self {
            Whole::NotNegative(magnitude) | Whole::Negative(magnitude) => magnitude,
        }
    }

    // What the number leaves modulo `most` + 1: its low bits, where `most` is so many ones.
    pub fn residue(self, most: u64) -> u64
        ensures { Reduced (suc most) (whole_meant self) result }
    {
        if self.is_negative() {
            return most - wrapped(self.magnitude() - 1, most);
        }
        wrapped(self.magnitude(), most)
    }
}

// The numbers of a field: those of so many bits, half of them below zero if they are signed. A field's place in a word is no matter here.
#[derive(Clone, Copy)]
pub struct NumberRange {
    pub width: u32,
    pub signed: bool,
}

impl NumberRange {
    // How many numbers there are, and so how many patterns of bits.
    pub fn size(self) -> u32
        requires { self.width < 32 }
        ensures { result ≡ 2 ^ self.width }
    {
        1 << self.width
    }

    // How many of them are below zero: half, or none.
    fn below_zero(self) -> u64
        requires { IsRange self }
        ensures { result ≡ below_zero (range_meant self) }
    {
        if !self.signed {
            return 0;
        }
        u64::from(self.size()) / 2
    }

    // Whether a number is one of them.
    pub fn holds(self, number: Whole) -> bool
        requires { IsRange self }
        ensures { result ≡ lies_in (range_meant self) (whole_meant number) }
    {
        if number.is_negative() {
            return number.magnitude() <= self.below_zero();
        }
        number.magnitude() < u64::from(self.size()) - self.below_zero()
    }
}
