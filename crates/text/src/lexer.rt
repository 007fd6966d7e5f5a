// Tokens: the one that stands at a place of a line, and the next one past blanks. What reads takes the slice and a place in it, the form
// that document 01 names for what the reader rests on, and so asks that the place is within the slice.
ghost use Rattle.std.specs.Prelude.{◌≡◌, true, false, ◌+◌, ◌-◌, ◌≤◌, ◌<◌, length, drop, get_or};
ghost use Rattle.text_lexical.specs.Bytes.{name_start, digit, blank, run};
ghost use Rattle.text_lexical.specs.Names.{present};
ghost use Rattle.text.specs.Promised.{spelling, name_end, pattern_kind, mark_kind, mark_of_byte, ending_at, token_at, scan_at, number_start, scan_if, IsDecimal, Prefixed, NoWord};

use text_lexical::bytes::{Blank, Class, Inside, Margin, NamePart};
use text_lexical::name::RegisterName;
use text_lexical::number::Radix;
use text_lexical::register::Register;

// A number's kinds keep its magnitude, and `Negative` is one that is spelled with `-`, -0 too. The spelling of a name is the token's part of
// the text.
#[derive(Clone, Copy, PartialEq)]
pub enum Kind {
    Identifier,
    Register(Register),
    // a Register that names none
    NoRegister,
    Number(u64),
    Negative(u64),
    Hex(u64),
    Binary(u64),
    Directive,
    Comma,
    Colon,
    LParen,
    RParen,
}

// Its spelling is a part of the text by two numbers, as document 01 names that form.
#[derive(Clone, Copy)]
pub struct Token {
    pub kind: Kind,
    pub start: usize,
    pub length: usize,
}

impl Token {
    // Its spelling, in the text that it is a token of.
    pub fn spelling(self, text: &[u8]) -> &[u8]
        requires { self.start + self.length ≤ length text.now }
        ensures { result.now ≡ spelling text.now self }
    {
        &text[self.start..self.start + self.length]
    }
}

// What stands at a place: a token and the place after it, no token, or nothing that is left to read, with the place where the line ends. Of
// these three only the second is an error, and it is no refusal before the line is known to be read by tokens: a `Result` would say less
// plainly which is which. The place after a token is its start and its length together; it is answered because whoever reads on does so
// from there, while start and length are the token's spelling.
#[derive(Clone, Copy)]
pub enum Scan {
    Found { token: Token, next: usize },
    Bad,
    End(usize),
}

fn found(kind: Kind, at: usize, end: usize) -> Scan
    requires { at ≤ end }
    ensures { result ≡ Scan.Found (record { kind = kind; start = at; length = end - at }) end }
{
    Scan::Found {
        token: Token {
            kind,
            start: at,
            length: end - at,
        },
        next: end,
    }
}

// Where the name at `at` ends, if one begins there: a letter or `_`, and then letters, digits and `_`.
fn name_end(text: &[u8], at: usize) -> Option<usize>
    requires { at ≤ length text.now }
    ensures { result ≡ name_end text.now at }
{
    if text.len() <= at || !text_lexical::bytes::is_name_start(text[at]) {
        return None;
    }
    Some(text_lexical::bytes::run_end::<NamePart>(text, at + 1))
}

// A word at `at`, a Register or an Identifier, if one begins there: with a letter or `_`. It is told to be compiled in line, as `number` is.
#[inline(always)]
pub(crate) fn word(text: &[u8], at: usize) -> Option<Scan>
    requires { at ≤ length text.now }
    ensures { result ≡ scan_if name_start present text.now at }
{
    let end = name_end(text, at)?;
    let kind = match text_lexical::name::parse_register(&text[at..end]) {
        RegisterName::Is(register) => Kind::Register(register),
        RegisterName::NoSuch => Kind::NoRegister,
        RegisterName::Other => Kind::Identifier,
    };
    Some(found(kind, at, end))
}

// A Number is within i64: below 2^63, and with `-` at most that.
const LIMIT: u64 = 9223372036854775808;

// Decimal digits at `at`, all of which make the token.
fn decimal(text: &[u8], at: usize) -> Scan
    requires { IsDecimal present text.now at }
    ensures { result ≡ token_at present text.now at }
{
    let digits = text_lexical::number::digits_at(text, at, Radix::Decimal);
    match digits.value {
        Some(magnitude) if magnitude < LIMIT => found(Kind::Number(magnitude), at, digits.end),
        _ => Scan::Bad,
    }
}

// `-` at `at`.
fn minus(text: &[u8], at: usize) -> Scan
    requires in_text { at < length text.now }
    requires minus_here { get_or text.now at 0 ≡ 45 }
    ensures { result ≡ token_at present text.now at }
{
    let begin = at + 1;
    let digits = text_lexical::number::digits_at(text, begin, Radix::Decimal);
    if digits.end == begin {
        return Scan::Bad;
    }
    match digits.value {
        Some(magnitude) if magnitude <= LIMIT => found(Kind::Negative(magnitude), at, digits.end),
        _ => Scan::Bad,
    }
}

// The kind of a number of a radix. By the radix, since `prefixed` is one function for both letters; it asks for no decimal one.
fn pattern(radix: Radix, magnitude: u64) -> Kind
    ensures { result ≡ pattern_kind radix magnitude }
{
    match radix {
        Radix::Hex => Kind::Hex(magnitude),
        Radix::Binary => Kind::Binary(magnitude),
        Radix::Decimal => Kind::Number(magnitude),
    }
}

// `0x` or `0b` at `at`; without a digit after it, only `0` is the token.
fn prefixed(text: &[u8], at: usize, radix: Radix) -> Scan
    requires { Prefixed text.now at radix }
    ensures { result ≡ token_at present text.now at }
{
    let begin = at + 2;
    let digits = text_lexical::number::digits_at(text, begin, radix);
    if digits.end == begin {
        return decimal(text, at);
    }
    match digits.value {
        Some(magnitude) => found(pattern(radix, magnitude), at, digits.end),
        None => Scan::Bad,
    }
}

// A digit at `at`.
fn digits(text: &[u8], at: usize) -> Scan
    requires in_text { at < length text.now }
    requires digit_here { digit (get_or text.now at 0) ≡ true }
    ensures { result ≡ token_at present text.now at }
{
    let second = at + 1;
    if text[at] == b'0' && second < text.len() {
        if text[second] == b'x' {
            return prefixed(text, at, Radix::Hex);
        }
        if text[second] == b'b' {
            return prefixed(text, at, Radix::Binary);
        }
    }
    decimal(text, at)
}

// What stands at `at`, if a number begins there: with `-` or a digit. Where none begins, no other token is read to its end. It is told to be
// compiled in line: as a call it hands its answer on through memory, and lines with numbers take some 10 in 100 longer.
#[tactic(auto, unfolding(crate::specs::Promised::scan_if, crate::specs::Promised::number_start))]
#[inline(always)]
pub(crate) fn number(text: &[u8], at: usize) -> Option<Scan>
    requires { at < length text.now }
    ensures { result ≡ scan_if number_start present text.now at }
{
    match text[at] {
        b'-' => Some(minus(text, at)),
        b if text_lexical::bytes::is_digit(b) => Some(digits(text, at)),
        _ => None,
    }
}

// `.` at `at`.
fn directive(text: &[u8], at: usize) -> Scan
    requires in_text { at < length text.now }
    requires dot_here { get_or text.now at 0 ≡ 46 }
    ensures { result ≡ token_at present text.now at }
{
    match name_end(text, at + 1) {
        Some(end) => found(Kind::Directive, at, end),
        None => Scan::Bad,
    }
}

// Where the line ends, if nothing but margin or a comment is left of it from `at` on. Each line is left by it, and a call of it, which the
// compiler would make, takes a source of comments or of all `ecall` 5 in 100 longer.
#[inline(always)]
pub fn ending_at(text: &[u8], at: usize) -> Option<usize>
    requires { at ≤ length text.now }
    ensures { result ≡ ending_at text.now at }
{
    let stop = text_lexical::bytes::run_end::<Margin>(text, at);
    if text.len() <= stop {
        return Some(stop);
    }
    match text[stop] {
        b'#' => Some(text_lexical::bytes::line_end(text, stop)),
        b if Inside::has(b) => None,
        _ => Some(stop),
    }
}

// No token stands at `at`: the line is left here, or what stands here is bad.
fn end_or_bad(text: &[u8], at: usize) -> Scan
    requires in_text { at ≤ length text.now }
    requires no_blank { run blank (drop at text.now) ≡ 0 }
    requires no_token { token_at present text.now at ≡ Scan.Bad }
    ensures { result ≡ scan_at present text.now at }
{
    match ending_at(text, at) {
        Some(end) => Scan::End(end),
        None => Scan::Bad,
    }
}

// The kind of the mark that a byte is: the one place where a byte is told its kind of mark.
fn mark_kind(byte: u8) -> Option<Kind>
    ensures { result ≡ mark_kind byte }
{
    match byte {
        b',' => Some(Kind::Comma),
        b':' => Some(Kind::Colon),
        b'(' => Some(Kind::LParen),
        b')' => Some(Kind::RParen),
        _ => None,
    }
}

// Whether a kind is the mark of a byte.
pub fn is_mark(kind: Kind, byte: u8) -> bool
    ensures { result ≡ mark_of_byte kind byte }
{
    mark_kind(byte) == Some(kind)
}

// A mark at `at`, or no token.
fn mark_or_ending(text: &[u8], at: usize) -> Scan
    requires in_text { at < length text.now }
    requires no_word { NoWord text.now at }
    ensures { result ≡ scan_at present text.now at }
{
    match mark_kind(text[at]) {
        Some(kind) => found(kind, at, at + 1),
        None => end_or_bad(text, at),
    }
}

// What stands at `at`.
fn front(text: &[u8], at: usize) -> Scan
    requires in_text { at < length text.now }
    requires no_blank { blank (get_or text.now at 0) ≡ false }
    ensures { result ≡ scan_at present text.now at }
{
    if let Some(scan) = word(text, at) {
        return scan;
    }
    if text[at] == b'.' {
        return directive(text, at);
    }
    match number(text, at) {
        Some(scan) => scan,
        None => mark_or_ending(text, at),
    }
}

// The next token of the line from `from` on.
pub(crate) fn next_token(text: &[u8], from: usize) -> Scan
    requires { from ≤ length text.now }
    ensures { result ≡ scan_at present text.now from }
{
    let at = text_lexical::bytes::run_end::<Blank>(text, from);
    if at < text.len() {
        return front(text, at);
    }
    end_or_bad(text, at)
}
