// Reading a list: its bytes, records, and in a record a line of text and numbers. A place past the list's end holds 0, which is in no list and
// ends each number and tag there, so that no step of reading has to ask for the end first. A list and a place stand apart here: the methods of
// `Cursor`, which has both, rest on these functions.
ghost use Rattle.std.specs.Io.{ReadsAtMost};
ghost use Rattle.std.specs.Io.KnownBytes.{Consumes, IsAtEnd};
ghost use Rattle.std.specs.Prelude.{IfOk, IfSome, ◌≡◌, ◌+◌, ◌*◌, ◌<◌, ◌≤◌, [], ◌∷◌, ◌++◌, length, take};
ghost use Rattle.std.proofs.lemmas.List.Edits.{sets};
ghost use Rattle.test_replay.specs.List.{byte_at, has_tag, is_record_end, next_record, digit_value, fitted, number_at};
ghost use Rattle.test_replay.specs.List.{hex_digit, hex_byte_at, unescaped_at, line_for, piece_for};

use std::io;
use std::io::Read;

// A number, and the place behind the byte that ends it.
#[derive(Clone, Copy)]
pub struct Number {
    pub value: u64,
    pub next: usize,
}

// Where a line stands in the room, and the place behind its line of the list.
#[derive(Clone, Copy)]
pub struct Piece {
    pub start: usize,
    pub end: usize,
    pub next: usize,
}

// A byte that the list spells, and the place behind its spelling.
#[derive(Clone, Copy)]
pub struct Spelled {
    pub byte: u8,
    pub next: usize,
}

// Reads into a room until it is full or the input ends, and answers how many bytes it put there. Where it is known what the input has
// left, they are its first bytes, and all of them if they do not fill the room.
pub fn read_full<R: Read>(input: &mut R, room: &mut [u8]) -> io::Result<usize>
    ensures in_bounds { ReadsAtMost result room.new }
    ensures bytes { IfOk result (λ n. Consumes (R.remaining input.old) (R.remaining input.new) (take n room.new)) }
    ensures end { IfOk result (λ n. n < length room.new → IsAtEnd (R.remaining input.new)) }
{
    let mut done = 0;
    // each read tells where the next one begins, so no range gives the places
    while done < room.len() {
        let n = input.read(&mut room[done..])?;
        if n == 0 {
            break;
        }
        done += n;
    }
    Ok(done)
}

pub fn byte_at(list: &[u8], at: usize) -> u8
    ensures { result ≡ byte_at list.now at }
{
    list.get(at).copied().unwrap_or(0)
}

// Whether a line with this tag stands at a place. Tags are the list's own bytes, and each program has its own.
#[tactic(auto, unfolding(crate::specs::List::has_tag, crate::specs::List::behind))]
pub fn has_tag(list: &[u8], at: usize, tag: u8) -> bool
    ensures { result ≡ has_tag list.now at tag }
{
    byte_at(list, at) == tag && byte_at(list, at.wrapping_add(1)) == b' '
}

// Whether a record ends before a place: at an empty line, or at the list's end, but not where it was read past that.
#[tactic(auto, unfolding(crate::specs::List::is_record_end))]
pub fn is_record_end(list: &[u8], at: usize) -> bool
    ensures { result ≡ is_record_end list.now at }
{
    byte_at(list, at) == b'\n' || at == list.len()
}

// Where the next record begins: behind an empty line. The second promise follows from the first, and is what a loop over records
// asks for.
pub fn next_record(list: &[u8], from: usize) -> usize
    requires { from < length list.now }
    ensures value { result ≡ next_record list.now from }
    ensures lower_bound { from < result }
{
    let mut last = 0;
    for at in from..list.len() {
        let byte = list[at];
        if last == b'\n' && byte == b'\n' {
            return at + 1;
        }
        last = byte;
    }
    list.len()
}

// The value of a digit of a number in this radix, in lower case alone, where the library takes capitals too.
#[tactic(auto, unfolding(crate::specs::List::digit_value))]
fn digit_value(radix: u8, b: u8) -> Option<u8>
    ensures value { result ≡ digit_value radix b }
    ensures upper_bound { IfSome result (λ digit. digit < radix) }
{
    let value = match b {
        b'0'..=b'9' => b - b'0',
        b'a'..=b'f' => b - b'a' + 10,
        _ => return None,
    };
    (value < radix).then_some(value)
}

// A number with a digit behind it; the largest of 64 bits where that does not fit.
#[tactic(auto, unfolding(crate::specs::List::fitted))]
fn extended(value: u64, radix: u8, digit: u8) -> u64
    ensures { result ≡ fitted (value * radix + digit) }
{
    value
        .saturating_mul(u64::from(radix))
        .saturating_add(u64::from(digit))
}

// A number in a radix; its digits above 9 are in lower case.
pub(crate) fn number_in(list: &[u8], from: usize, radix: u8) -> Number
    requires { 0 < radix }
    ensures { result ≡ number_at radix list.now from }
{
    let mut value = 0;
    for at in from..list.len() {
        let Some(digit) = digit_value(radix, list[at]) else {
            return Number {
                value,
                next: at.wrapping_add(1),
            };
        };
        value = extended(value, radix, digit);
    }
    Number {
        value,
        next: from.max(list.len()).wrapping_add(1),
    }
}

#[tactic(auto, unfolding(crate::specs::List::hex_digit))]
fn hex_digit(b: u8) -> u8
    ensures value { result ≡ hex_digit b }
    ensures upper_bound { result < 16 }
{
    digit_value(16, b).unwrap_or(0)
}

// A byte of two digits in hex, lower case.
#[tactic(auto, unfolding(crate::specs::List::hex_byte_at, crate::specs::List::behind))]
pub fn hex_byte_at(list: &[u8], at: usize) -> Spelled
    ensures { result ≡ hex_byte_at list.now at }
{
    let high = hex_digit(byte_at(list, at));
    let low = hex_digit(byte_at(list, at.wrapping_add(1)));
    Spelled {
        byte: high * 16 + low,
        next: at.wrapping_add(2),
    }
}

// A byte that stands for itself, or is escaped.
#[tactic(auto, unfolding(crate::specs::List::unescaped_at, crate::specs::List::behind))]
pub fn unescaped_at(list: &[u8], at: usize) -> Spelled
    ensures { result ≡ unescaped_at list.now at }
{
    let byte = byte_at(list, at);
    let next = at.wrapping_add(1);
    if byte == b'\\' {
        return hex_byte_at(list, next);
    }
    Spelled { byte, next }
}

// Puts a record's line into the room, behind two bytes that it leaves, and byte 10 behind it. The place is one of the list: the room has none,
// and is filled from its third byte on. A line that is too long is cut, and then differs. The last two promises follow from the others, and are
// what a use of the line asks for, as `&room[..end]`. Any room will do that has a third byte, so it is no array of one length.
pub fn line_at(list: &[u8], from: usize, room: &mut [u8]) -> Piece
    requires { 2 < length room.old }
    ensures value { result ≡ piece_for (length room.old) list.now from }
    ensures room_after { room.new ≡ sets room.old 2 (line_for (length room.old) list.now from ++ (10 ∷ [])) }
    ensures within_room { (result.start ≤ result.end) × (result.end < length room.new) }
    ensures slice_end { result.end ≡ length (take result.end room.new) }
{
    let start = 2;
    let last = room.len() - 1;
    let mut end = last;
    let mut at = from;
    for place in start..last {
        if byte_at(list, at) == b'\n' {
            end = place;
            break;
        }
        let spelled = unescaped_at(list, at);
        room[place] = spelled.byte;
        at = spelled.next;
    }
    room[end] = b'\n';
    Piece {
        start,
        end,
        next: at.wrapping_add(1),
    }
}
