// Reads lines of one instruction with the oracle's words and texts for them, and words alone, and compares what
// the crates of the instruction layer make of them. Writes the number of each record that differs, then counts.
#![tactic(auto)]

ghost use Rattle.std.specs.Prelude.{◌≡◌, length};
ghost use Rattle.test_replay.specs.Tally.{tally_text};
ghost use Rattle.test_words.specs.Counts.{counts};

mod calls;
mod list;

use instruction::instruction::Instruction;
use instruction_codec::encoder::decode;
use instruction_encoder::encoder::encode;
use list::{after_label, after_text, has_text, refusal};
use std::io;
use std::io::Write;
use test_replay::cursor::Cursor;
use test_replay::list::read_full;
use test_replay::replay::{Replay, compare};
use test_replay::report::Report;
use test_replay::room::room;
use test_replay::tally::{Outcome, Tally, agrees};

// Whether the text after the first eight bytes is read as an instruction that has this word.
fn reads(text: &[u8], word: u32) -> bool {
    if text.len() < 8 {
        return false;
    }
    match calls::read(text, 8, 0) {
        Err(_) => false,
        Ok(draft) => !draft.names_label() && encode(calls::instruction_of(draft)) == word,
    }
}

// Whether a word's instruction has this word, and the text that the list has at a place, from which it is read again. The room's length is asked
// for as `calls::write` asks for it.
fn is_decoded(instruction: Instruction, word: u32, place: Cursor, room: &mut [u8]) -> bool
    requires { length room.old ≡ 96 }
{
    let text = calls::write(instruction, room);
    let is_read_again = reads(&room[..text.end], word);
    is_read_again
        && encode(instruction) == word
        && has_text(room, text, b'l', place)
        && after_text(place, text).is_record_end()
}

// A word, of eight digits, and its text or refusal.
fn word_outcome(place: Cursor) -> Outcome {
    let mut cursor = place.after(2);
    let word = cursor.hex();
    let next = place.after(11);
    if cursor.at != next.at || !place.has_tag(b'w') {
        return Outcome::Differs;
    }
    let Ok(word) = u32::try_from(word) else {
        return Outcome::Differs;
    };
    match decode(word) {
        Err(met) => refusal(met, next),
        Ok(instruction) => {
            let mut room = [b'$'; 96];
            if is_decoded(instruction, word, next, &mut room) {
                Outcome::Listed
            } else {
                Outcome::Differs
            }
        }
    }
}

// The instruction of a line: its text with the number as it stands there, or 0 for a label, its word, and all that holds of that word.
fn instruction_outcome(instruction: Instruction, place: Cursor) -> Outcome {
    let mut room = [b'$'; 96];
    let text = calls::write(instruction, &mut room);
    let next = after_text(place, text);
    let word = next.after(2).hex();
    if !has_text(&room, text, b'u', place) || word != u64::from(encode(instruction)) {
        return Outcome::Differs;
    }
    match word_outcome(next) {
        Outcome::Listed => Outcome::Assembled,
        _ => Outcome::Differs,
    }
}

// A line, the place of its mnemonic, of one digit, and its instruction or refusal.
fn line_outcome(place: Cursor, room: &mut [u8; 512]) -> Outcome {
    let piece = test_replay::list::line_at(place.list, place.after(2).at, room);
    let next = Cursor {
        list: place.list,
        at: piece.next,
    };
    let mut cursor = next.after(2);
    let mnemonic = cursor.number();
    let after = next.after(4);
    if 2 < mnemonic || cursor.at != after.at || !place.has_tag(b's') || !next.has_tag(b'm') {
        return Outcome::Differs;
    }
    match calls::read(room, piece.start, mnemonic as usize) {
        Err(met) => refusal(met, after),
        Ok(draft) => match after_label(draft, piece.start, after) {
            None => Outcome::Differs,
            Some(place) => instruction_outcome(calls::instruction_of(draft), place),
        },
    }
}

// Compares the record at a place. Around a line stand bad tokens.
fn outcome(place: Cursor) -> Outcome {
    if place.byte() == b'w' {
        return word_outcome(place);
    }
    let mut room = [b'$'; 512];
    line_outcome(place, &mut room)
}

// The records compared so far. A line that agrees is one that is assembled, a word one that is listed.
#[derive(Drop)]
struct Words {
    tally: Tally,
}

impl Replay for Words {
    ghost text = { λ words. tally_text counts words.tally };

    fn agrees(&mut self, place: Cursor) -> bool {
        let outcome = outcome(place);
        self.tally.count(outcome);
        agrees(outcome)
    }

    #[tactic(auto, unfolding(crate::specs::Counts::counts, test_replay::specs::Report::bytes))]
    fn put_counts(&self, report: &mut Report) {
        let text = b"# records, # differences\n# lines read, encoded, decoded and written\n\
                     # words decoded, encoded, written and read\n";
        self.tally.put(text, report);
    }
}

fn main(rt: HostRuntime) -> io::Result<()> {
    let mut list = room::<524288>();
    let n = read_full(&mut rt.stdin(), &mut list)?;
    let mut room = room::<131072>();
    let mut report = Report::new(&mut room);
    let mut words = Words {
        tally: Tally::new(),
    };
    compare(&mut words, &list[..n], &mut report);
    rt.stdout().write_all(report.text())
}
