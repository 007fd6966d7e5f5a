// Reads lines with the tokens that the oracle reads of them, and compares what `tokenize` reads. Writes the number of each
// record that differs, then counts.
#![tactic(auto)]

ghost use Rattle.std.specs.Prelude.{◌≤◌, length};
ghost use Rattle.test_tokens.specs.Tally.{tally_text};

mod list;
mod tally;

use list::is_answer;
use refusal::refusal::Refusal;
use std::io;
use std::io::Write;
use tally::Tally;
use test_replay::cursor::Cursor;
use test_replay::list::{line_at, read_full};
use test_replay::replay::{Replay, compare};
use test_replay::report::Report;
use text::parser::Line;
use text_lexical::bytes::Margin;

// What is read of the line that begins at `from`, past its margin.
fn record_of(text: &[u8], from: usize) -> Result<Line, Refusal>
    requires { from ≤ length text.now }
{
    let start = text_lexical::bytes::run_end::<Margin>(text, from);
    text::parser::tokenize(text, start)
}

// Compares and counts the record of a line, which is read into the room. The line stands twice: within a text, where what is before it and
// after its byte 10 must not matter, and at a text's end.
fn agrees_in(tally: &mut Tally, place: Cursor, room: &mut [u8; 512]) -> bool {
    let piece = line_at(place.list, place.after(2).at, room);
    let read = record_of(room, piece.start);
    let last = record_of(&room[..piece.end], piece.start);
    let agrees = is_answer(read, piece, place.list) && is_answer(last, piece, place.list);
    *tally = tally.with_line(read, agrees);
    agrees
}

impl Replay for Tally {
    ghost text = { tally_text };

    // Around the line stand bad tokens.
    fn agrees(&mut self, place: Cursor) -> bool {
        let mut room = [b'$'; 512];
        agrees_in(self, place, &mut room)
    }

    fn put_counts(&self, report: &mut Report) {
        self.put(report);
    }
}

fn main(rt: HostRuntime) -> io::Result<()> {
    let mut list = [0; 131072];
    let n = read_full(&mut rt.stdin(), &mut list)?;
    let mut room = [0; 65536];
    let mut report = Report::new(&mut room);
    compare(&mut Tally::default(), &list[..n], &mut report);
    rt.stdout().write_all(report.text())
}
