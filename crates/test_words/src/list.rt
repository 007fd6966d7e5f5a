// Whether a text and a refusal are what the list has at a place.
ghost use Rattle.std.specs.Prelude.{◌≡◌};
ghost use Rattle.refusal.specs.Refusals.{number_of};
ghost use Rattle.test_words.specs.Records.{room_byte, holds_text, same_text, refusal_at};

use crate::calls::Text;
use instruction::instruction::{Amount, Draft};
use refusal::refusal::Refusal;
use test_replay::cursor::Cursor;
use test_replay::tally::Outcome;

// Where the list goes on after the label that an instruction names, if it names one, and the list has where that stands, counted from the
// line's first byte.
pub(crate) fn after_label(draft: Draft, start: usize, place: Cursor) -> Option<Cursor> {
    let Amount::Label(label) = draft.amount else {
        return Some(place);
    };
    let mut next = place.after(2);
    let from = next.number();
    let length = next.number();
    let is_there = start.wrapping_add(from as usize) == label.start
        && length == label.length as u64;
    if !place.has_tag(b'n') || !is_there {
        return None;
    }
    Some(next)
}

// Where the list goes on after a line with a text.
pub(crate) fn after_text(place: Cursor, text: Text) -> Cursor {
    place.after(3).after(text.length)
}

// What has to stand at a place of a room of `$` that has `count` bytes of the list after its first eight.
#[tactic(auto, unfolding(crate::specs::Records::room_byte, test_replay::specs::List::behind))]
fn wanted_at(i: usize, count: usize, text: Cursor) -> u8
    ensures { result ≡ room_byte count text.entry.list.now text.entry.at i }
{
    if 8 <= i && i - 8 < count {
        return text.after(i - 8).byte();
    }
    b'$'
}

// Whether a room of `$` has the list's text after its first eight bytes, and nothing else, and the list's line ends there. No one slice has both
// parts to compare with.
#[tactic(auto, unfolding(crate::specs::Records::holds_text))]
fn holds(room: &[u8], count: usize, text: Cursor) -> bool
    ensures { result ≡ holds_text room.now count text.entry.list.now text.entry.at }
{
    if room.len() < count.saturating_add(8) {
        return false;
    }
    text.after(count).byte() == b'\n'
        && room
            .iter()
            .enumerate()
            .all(|(i, &byte)| byte == wanted_at(i, count, text))
}

// Whether the room has an instruction's text, said to be as long as it is, and the list's line at a place has it under this tag, a byte of the
// list's own.
#[tactic(auto, unfolding(crate::specs::Records::same_text, test_replay::specs::List::behind))]
pub(crate) fn has_text(room: &[u8], text: Text, tag: u8, place: Cursor) -> bool
    ensures { result ≡ same_text room.now text tag place.entry.list.now place.entry.at }
{
    text.end == 8usize.wrapping_add(text.length)
        && place.has_tag(tag)
        && holds(room, text.length, place.after(2))
}

// The refusal, if it is what the list has at a place and nothing follows.
#[tactic(auto, unfolding(crate::specs::Records::refusal_at, test_replay::specs::List::behind))]
pub(crate) fn refusal(met: Refusal, place: Cursor) -> Outcome
    ensures { result ≡ refusal_at (number_of met) place.entry.list.now place.entry.at }
{
    let number = u64::from(u8::from(met));
    let mut next = place.after(2);
    let wanted = next.number();
    if place.has_tag(b'r') && wanted == number && next.is_record_end() {
        return Outcome::Refused(number);
    }
    Outcome::Differs
}
