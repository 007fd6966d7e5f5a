// Register names, looked up by their bytes, and the packed keys by which other words are told apart. A place is asked to be within its text, as
// in `bytes`.
ghost use Rattle.std.specs.Prelude.{◌≡◌, [], ◌∷◌, ◌+◌, ◌^◌, ◌≤◌, ◌<◌, length};
ghost use Rattle.std.proofs.Math.Option.{some};
ghost use Rattle.text_lexical.specs.Names.{named, present};
ghost use Rattle.text_lexical.specs.Promised.{name_meant, name_number, register_number, name_key};
ghost use Rattle.text_lexical.specs.Words.{Roomy, with_byte, WordIs, up_to, RegisterWordIs, LettersOf};

use crate::bytes::NamePart;
use crate::register::{REGISTERS, Register};

// The key of a word, if it has no more bytes than a key, and its end.
#[derive(Clone, Copy)]
pub struct Word {
    pub key: Option<u64>,
    pub end: usize,
}

// Three answers: an `Option` within another would say less plainly which is which.
#[derive(Clone, Copy)]
pub enum RegisterName {
    Is(Register),
    // a name of no register
    NoSuch,
    // no name
    Other,
}

// The register that the word at a place names, and the word's end.
#[derive(Clone, Copy)]
pub struct RegisterWord {
    pub register: Register,
    pub end: usize,
}

// How many bytes the longest name has.
const LONGEST: usize = 4;

// The names of two bytes that begin with one letter.
struct Pair {
    letter: u8,
    // How many digits may follow the letter, and the register's number for the digit 0.
    digits: u8,
    first: u8,
    // The other byte that may follow (ra; sp, tp, fp and gp), and its register's number; `a` has only digits. For `a`
    // its digit 0 stands there, which the digits tell before it is asked; an `Option` would be one test more for each name. Both registers are
    // numbers, since that of a digit may be 16 (a5), which is no register's.
    other: u8,
    number: u8,
}

// They are looked up by the last three bits of the first byte, which tell the letters apart: a branch for each letter would often be
// guessed wrong.
#[rattlefmt::skip]
static PAIRS: [Option<Pair>; 8] = [
    None,
    Some(Pair { letter: b'a', digits: 6, first: 11, other: b'0', number: 11 }),
    Some(Pair { letter: b'r', digits: 10, first: 0, other: b'a', number: 1 }),
    Some(Pair { letter: b's', digits: 2, first: 6, other: b'p', number: 2 }),
    Some(Pair { letter: b't', digits: 3, first: 8, other: b'p', number: 4 }),
    None,
    Some(Pair { letter: b'f', digits: 0, first: 0, other: b'p', number: 5 }),
    Some(Pair { letter: b'g', digits: 0, first: 0, other: b'p', number: 3 }),
];

// The register with a number, if it is one's: a name with a higher number (a5) names none.
#[tactic(auto, unfolding(crate::specs::Promised::register_number))]
fn numbered(number: u8) -> RegisterName
    ensures { name_meant result ≡ some (register_number number) }
{
    if number < REGISTERS {
        return RegisterName::Is(Register::from_index(number));
    }
    RegisterName::NoSuch
}

// The register that two bytes name.
fn two_bytes(first: u8, second: u8) -> RegisterName
    ensures { name_meant result ≡ name_number (named present (first ∷ second ∷ [])) }
{
    let Some(pair) = &PAIRS[(first % 8) as usize] else {
        return RegisterName::Other;
    };
    if pair.letter != first {
        return RegisterName::Other;
    }
    match crate::number::decimal(second) {
        Some(digit) if digit < pair.digits => numbered(pair.first + digit),
        _ if second == pair.other => numbered(pair.number),
        _ => RegisterName::Other,
    }
}

// The register that three bytes name: r10 to r15. A higher number makes an Identifier, where `a5` is a register's name that has none.
fn three_bytes(first: u8, second: u8, third: u8) -> RegisterName
    ensures { name_meant result ≡ name_number (named present (first ∷ second ∷ third ∷ [])) }
{
    if first != b'r' || second != b'1' {
        return RegisterName::Other;
    }
    match crate::number::decimal(third) {
        Some(digit) if digit < 6 => RegisterName::Is(Register::from_index(10 + digit)),
        _ => RegisterName::Other,
    }
}

// The register that four bytes name: zero.
fn four_bytes(first: u8, second: u8, third: u8, fourth: u8) -> RegisterName
    ensures { name_meant result ≡ name_number (named present (first ∷ second ∷ third ∷ fourth ∷ [])) }
{
    if first != b'z' || second != b'e' || third != b'r' || fourth != b'o' {
        return RegisterName::Other;
    }
    RegisterName::Is(Register::R0)
}

// The register that a spelling names, by the present names.
pub fn parse_register(name: &[u8]) -> RegisterName
    ensures { name_meant result ≡ name_number (named present name.now) }
{
    match *name {
        [first, second] => two_bytes(first, second),
        [first, second, third] => three_bytes(first, second, third),
        [first, second, third, fourth] => four_bytes(first, second, third, fourth),
        _ => RegisterName::Other,
    }
}

// A register that is named up to a place.
fn up_to(name: RegisterName, end: usize) -> Option<RegisterWord>
    ensures { result ≡ up_to name end }
{
    match name {
        RegisterName::Is(register) => Some(RegisterWord { register, end }),
        _ => None,
    }
}

// The register that the word at `at` names, found while the word's end is: for an operand, whose name is looked up at once. The byte after
// the longest name is looked at too, so that a word at the text's end is left to `parse_register`. There is none where the word names no
// register, or stands too near the text's end for this look-up.
pub fn register_word(text: &[u8], at: usize) -> Option<RegisterWord>
    requires { at ≤ length text.now }
    ensures { RegisterWordIs present text.now at result }
{
    if text.len() - at <= LONGEST {
        return None;
    }
    let first = text[at];
    let second = text[at + 1];
    let third = text[at + 2];
    if !crate::bytes::is_name_part(third) {
        return up_to(two_bytes(first, second), at + 2);
    }
    let fourth = text[at + 3];
    if !crate::bytes::is_name_part(fourth) {
        return up_to(three_bytes(first, second, third), at + 3);
    }
    if !crate::bytes::is_name_part(text[at + 4]) {
        return up_to(four_bytes(first, second, third, fourth), at + 4);
    }
    None
}

// How many bytes a key has at most.
const KEY_BYTES: usize = 7;

// What a byte of a key counts against the one before it.
const BYTE: u64 = 256;

// Bytes packed so far: their number, the first byte lowest, and what the next byte counts. Passed by value, so that it stays in registers.
#[derive(Clone, Copy)]
struct Packed {
    sum: u64,
    scale: u64,
}

// No byte.
const UNPACKED: Packed = Packed { sum: 0, scale: 1 };

impl Packed {
    // A byte more.
    fn with(self, b: u8) -> Packed
        requires { Roomy self }
        ensures { result ≡ with_byte self b }
    {
        Packed {
            sum: self.sum + u64::from(b) * self.scale,
            scale: self.scale * BYTE,
        }
    }

    // The key: a 1 after the last byte.
    fn key(self) -> u64
        requires { self.sum + self.scale < 2 ^ 64 }
        ensures { result ≡ self.sum + self.scale }
    {
        self.sum + self.scale
    }
}

// The word at `at`: its key in lower case, and its end. It has no byte where no part of a name stands. Each line's first word is read by it:
// as a call it takes ordinary lines 8 in 100 longer.
#[inline(always)]
pub fn lower_word(text: &[u8], at: usize) -> Word
    requires { at ≤ length text.now }
    ensures { WordIs text.now at result }
{
    let mut packed = UNPACKED;
    for i in at..text.len() {
        let Some(b) = crate::bytes::name_byte(text[i]) else {
            return Word {
                key: Some(packed.key()),
                end: i,
            };
        };
        if KEY_BYTES <= i - at {
            return Word {
                key: None,
                end: crate::bytes::run_end::<NamePart>(text, i),
            };
        }
        packed = packed.with(b);
    }
    Word {
        key: Some(packed.key()),
        end: text.len(),
    }
}

// The key of a name in lower case: none where a byte is no part of a name.
pub fn lower_key(spelling: &[u8]) -> Option<u64>
    ensures { result ≡ name_key spelling.now }
{
    let word = lower_word(spelling, 0);
    if word.end < spelling.len() {
        return None;
    }
    word.key
}

// The bytes that were packed into a key: the first `length` of eight.
#[derive(Clone, Copy)]
pub struct Letters {
    pub bytes: [u8; 8],
    pub length: usize,
}

// The letters of a key: its bytes below the highest, which is 1. Each key has that one, so none is 0.
pub fn letters_of(key: u64) -> Letters
    requires { 0 < key }
    ensures { LettersOf key result }
{
    Letters {
        bytes: key.to_le_bytes(),
        length: key.ilog2() as usize / 8,
    }
}
