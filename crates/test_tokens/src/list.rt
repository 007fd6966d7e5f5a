// What a record of the list says of a line's tokens, and whether a line's record agrees.
ghost use Rattle.std.specs.Prelude.{◌≡◌};
ghost use Rattle.test_tokens.specs.Entries.{spelling_of, entry_of, entry_at, entry_end, filler, same_tokens, same_line};

use refusal::refusal::Refusal;
use test_replay::cursor::Cursor;
use test_replay::list::Piece;
use text::lexer::{Kind, Token};
use text::parser::Line;

// A token as the list has it. Its tag and its kind are the list's own bytes: an enum of kinds would be the one of the crate under test.
#[derive(Clone, Copy, PartialEq)]
pub struct Entry {
    pub tag: u8,
    pub kind: u8,
    pub start: u64,
    pub length: u64,
    pub value: u64,
}

// How a kind stands in the list: its letter and its number.
#[derive(Clone, Copy)]
pub struct Spelling {
    pub letter: u8,
    pub value: u64,
}

impl Spelling {
    fn new(letter: u8, value: u64) -> Spelling
        ensures { result ≡ record { letter = letter; value = value } }
    {
        Spelling { letter, value }
    }
}

// How the list spells a kind: a function with a name, since a conversion would not say that the letters are the list's own.
#[tactic(auto, unfolding(crate::specs::Entries::spelling_of))]
fn spelled(kind: Kind) -> Spelling
    ensures { result ≡ spelling_of kind }
{
    match kind {
        Kind::Identifier => Spelling::new(b'i', 0),
        Kind::Register(register) => Spelling::new(b'r', u64::from(u8::from(register))),
        Kind::NoRegister => Spelling::new(b'r', 16),
        Kind::Number(value) => Spelling::new(b'n', value),
        Kind::Negative(value) => Spelling::new(b'm', value),
        Kind::Hex(value) => Spelling::new(b'h', value),
        Kind::Binary(value) => Spelling::new(b'b', value),
        Kind::Directive => Spelling::new(b'd', 0),
        Kind::Comma => Spelling::new(b',', 0),
        Kind::Colon => Spelling::new(b':', 0),
        Kind::LParen => Spelling::new(b'(', 0),
        Kind::RParen => Spelling::new(b')', 0),
    }
}

// A token that was read, as the list would have it, which a conversion would not say.
#[tactic(auto, unfolding(crate::specs::Entries::entry_of))]
fn entry_of(token: Token) -> Entry
    ensures { result ≡ entry_of token }
{
    let spelling = spelled(token.kind);
    Entry {
        tag: b'k',
        kind: spelling.letter,
        start: token.start as u64,
        length: token.length as u64,
        value: spelling.value,
    }
}

// Reads a token of a line that begins at `from` of the text.
#[tactic(auto, unfolding(crate::specs::Entries::entry_at, crate::specs::Entries::entry_end, test_replay::specs::List::behind))]
fn read_entry(cursor: &mut Cursor, from: usize) -> Entry
    ensures value { result ≡ entry_at cursor.old.list.now cursor.old.at from }
    ensures place { cursor.new ≡ record { list = cursor.old.list; at = entry_end cursor.old.list.now cursor.old.at } }
{
    let tag = cursor.byte();
    let kind = cursor.after(2).byte();
    cursor.skip(4);
    let start = cursor.number().wrapping_add(from as u64);
    let length = cursor.number();
    let value = cursor.number();
    Entry {
        tag,
        kind,
        start,
        length,
        value,
    }
}

// What stands past the count, where the list has nothing.
fn filler() -> Entry
    ensures { result ≡ filler }
{
    Entry {
        tag: b'k',
        kind: b',',
        start: 0,
        length: 0,
        value: 0,
    }
}

// Whether the places of a line from `from` hold the tokens that the list has at a place, and then the filler.
fn are_entries(line: Line, from: usize, place: Cursor) -> bool
    ensures { result ≡ same_tokens line.count from line.tokens place.entry.list.now place.entry.at }
{
    let mut cursor = place;
    // a token stands where the one before it ends, so a chain's closure would change the cursor, and nothing be known of what it answers
    for (i, &token) in line.tokens.iter().enumerate() {
        let wanted = if i < line.count {
            read_entry(&mut cursor, from)
        } else {
            filler()
        };
        if entry_of(token) != wanted {
            return false;
        }
    }
    cursor.is_record_end()
}

// Whether what is read of a line is what the list has after it.
#[tactic(auto, unfolding(crate::specs::Entries::same_line, test_replay::specs::List::behind))]
pub(crate) fn is_answer(read: Result<Line, Refusal>, piece: Piece, list: &[u8]) -> bool
    ensures { result ≡ same_line read piece list.now }
{
    let place = Cursor {
        list,
        at: piece.next,
    };
    let tag = place.byte();
    let mut next = place.after(2);
    match read {
        Ok(line) => {
            let count = next.number();
            tag == b'n'
                && line.count as u64 == count
                && line.end == piece.end
                && are_entries(line, piece.start, next)
        }
        Err(Refusal::BadToken) => tag == b'b' && next.is_record_end(),
        Err(_) => false,
    }
}
