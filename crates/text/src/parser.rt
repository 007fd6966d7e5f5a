// Numbers, of tokens and at places of a text, and the record of a line's tokens.
ghost use Rattle.std.specs.Prelude.{◌≡◌, ◌≤◌, length};
ghost use Rattle.text_lexical.specs.Names.{present};
ghost use Rattle.text_lexical.specs.Promised.{range_meant, whole_meant, whole_for, IsRange};
ghost use Rattle.text.specs.Places.{StartsAt};
ghost use Rattle.text.specs.Values.{read_decimal, read_pattern};
ghost use Rattle.text.specs.Promised.{extract_for, extracted, number_at, identifier_length, record_at};

use crate::lexer::{Kind, Scan, Token};
use crate::reader::Reader;
use refusal::refusal::Refusal;
use text_lexical::number::{NumberRange, Whole};

// A number that is written in decimals, if it lies in a range.
#[tactic(auto, unfolding(crate::specs::Values::read_decimal, refusal::specs::Refusals::refusals))]
fn read_decimal(number: Whole, range: NumberRange) -> Result<Whole, Refusal>
    requires range { IsRange range }
    requires settled { number ≡ whole_for (whole_meant number) }
    ensures { result ≡ extract_for (read_decimal (range_meant range) (whole_meant number)) }
{
    if !range.holds(number) {
        return Err(Refusal::NumberOutOfRange);
    }
    Ok(number)
}

// A number that is written as its bits, if a range has so many.
#[tactic(auto, unfolding(crate::specs::Values::read_pattern, refusal::specs::Refusals::refusals))]
fn read_pattern(bits: u64, range: NumberRange) -> Result<Whole, Refusal>
    requires { IsRange range }
    ensures { result ≡ extract_for (read_pattern (range_meant range) bits) }
{
    if u64::from(range.size()) <= bits {
        return Err(Refusal::NumberOutOfRange);
    }
    Ok(Whole::NotNegative(bits))
}

// The whole number of a range that a token means; -0 is 0. Operands and `.config` read their numbers by this function, whose name says so
// where a `TryFrom` would not.
#[tactic(auto, unfolding(crate::specs::Values::read_number, refusal::specs::Refusals::refusals))]
pub fn extract_number(kind: Kind, range: NumberRange) -> Result<Whole, Refusal>
    requires { IsRange range }
    ensures { result ≡ extracted range kind }
{
    match kind {
        Kind::Number(magnitude) => read_decimal(Whole::NotNegative(magnitude), range),
        Kind::Negative(magnitude) => read_decimal(Whole::minus(magnitude), range),
        Kind::Hex(bits) | Kind::Binary(bits) => read_pattern(bits, range),
        _ => Err(Refusal::NumberExpected),
    }
}

// A whole number that stands in a text, and where its token ends.
#[derive(Clone, Copy)]
pub struct NumberAt {
    pub number: Whole,
    pub end: usize,
}

// The whole number of a range whose token stands at a place, and where the token ends: none where no number stands there, or one that is out of
// the range or a bad token. Operands that are read from a line's bytes are found by it.
pub fn number_at(text: &[u8], at: usize, range: NumberRange) -> Option<NumberAt>
    requires in_text { at ≤ length text.now }
    requires range { IsRange range }
    ensures { result ≡ number_at present text.now at range }
{
    if text.len() <= at {
        return None;
    }
    let Scan::Found { token, next } = crate::lexer::number(text, at)? else {
        return None;
    };
    // Each token that `number` finds is one, so there is a number unless it is out of the range.
    let Ok(number) = extract_number(token.kind, range) else {
        return None;
    };
    Some(NumberAt { number, end: next })
}

// The length of the Identifier that stands at a place: none where none stands there. The place after it is one addition away.
pub fn identifier_length(text: &[u8], at: usize) -> Option<usize>
    requires { at ≤ length text.now }
    ensures { result ≡ identifier_length present text.now at }
{
    let Scan::Found { token, .. } = crate::lexer::word(text, at)? else {
        return None; // a word is always found
    };
    if token.kind == Kind::Identifier {
        return Some(token.length);
    }
    None
}

// How many tokens of a line its record keeps.
pub const KEPT: usize = 9;

// The record of a line: its first tokens, the count of all, and where the line ends. An array by value and a count, as document 01 names that
// form: there is no heap.
#[derive(Clone, Copy)]
pub struct Line {
    pub tokens: [Token; KEPT],
    pub count: usize,
    pub end: usize,
}

// What fills the places that no token takes.
const FILLER: [Token; KEPT] = [Token {
    kind: Kind::Comma,
    start: 0,
    length: 0,
}; KEPT];

// The record of the line whose content starts at `start`: whoever reads a line has skipped its margin.
pub fn tokenize(text: &[u8], start: usize) -> Result<Line, Refusal>
    requires { StartsAt text.now start }
    ensures { result ≡ record_at present text.now start }
{
    let mut reader = Reader::new(text, start);
    let mut tokens = FILLER;
    let mut count: usize = 0;
    // The reader's last answer is the line's end or why there is none, which an iterator's `None` would not say.
    loop {
        match reader.next() {
            Scan::End(end) => return Ok(Line { tokens, count, end }),
            Scan::Bad => return Err(Refusal::BadToken),
            Scan::Found { token, .. } => {
                if count < KEPT {
                    tokens[count] = token;
                }
                count += 1;
            }
        }
    }
}
