// Reads sources and images with the oracle's answers, and compares what the library and the functions of `capi` answer: the answer,
// every entry and every byte lent. Writes the number of each record that differs, then counts.
#![tactic(auto)]

ghost use Rattle.test_replay.specs.Tally.{tally_text};
ghost use Rattle.test_vectors.specs.Counts.{counts};

mod answer;
mod calls;
mod images;
mod lines;
mod pieces;
mod record;
mod room;
mod sources;
mod table;

use std::io;
use std::io::Write;
use test_replay::cursor::Cursor;
use test_replay::list::read_full;
use test_replay::replay::{Replay, compare};
use test_replay::report::Report;
use test_replay::room::room;
use test_replay::tally::{Outcome, Tally, agrees};

// What a record's parts are read into, a source or a text into one room, and the buffers that are lent.
#[derive(Drop)]
struct Rooms<'a> {
    source: &'a mut [u8],
    image: &'a mut [u8],
    image_buffer: &'a mut [u8],
    text_buffer: &'a mut [u8],
}

// The text of an accepted source's image goes where the source was, which is not needed any more: a room of its own would be a quarter more of the
// stack that the program takes. The rooms are handed on one by one, since two of them are lent twice.
fn source_outcome(
    place: Cursor,
    source: &mut [u8],
    image: &mut [u8],
    image_buffer: &mut [u8],
    text_buffer: &mut [u8],
) -> Outcome {
    let Some(wanted) = record::source_at(place, source, image) else {
        return Outcome::Differs;
    };
    if !sources::agrees(wanted, image_buffer) {
        return Outcome::Differs;
    }
    let answer = wanted.answer;
    if answer.is_refused() {
        return Outcome::Refused(answer.number);
    }
    let length = wanted.image.len();
    let n = room::part(image, length);
    if !sources::is_listed(answer, &image[..n], source, image_buffer, text_buffer) {
        return Outcome::Differs;
    }
    Outcome::Assembled
}

fn image_outcome(place: Cursor, rooms: &mut Rooms) -> Outcome {
    let Some(wanted) = record::image_at(place, rooms.source, rooms.image) else {
        return Outcome::Differs;
    };
    if !images::agrees(wanted, rooms.image_buffer, rooms.text_buffer) {
        return Outcome::Differs;
    }
    match wanted.listing.answer.number {
        0 => Outcome::Listed,
        number => Outcome::Refused(number),
    }
}

// Compares the record at a place: a source's begins with a piece of it, an image's with a line of it or, if it is empty, with the
// length of the text buffer.
fn outcome(place: Cursor, rooms: &mut Rooms) -> Outcome {
    if place.has_tag(b's') || place.has_tag(b'x') {
        return source_outcome(
            place,
            rooms.source,
            rooms.image,
            rooms.image_buffer,
            rooms.text_buffer,
        );
    }
    image_outcome(place, rooms)
}

// What the records are compared in, and those compared so far.
#[derive(Drop)]
struct Vectors<'a> {
    rooms: Rooms<'a>,
    tally: Tally,
}

impl Replay for Vectors<'_> {
    ghost text = { λ vectors. tally_text counts vectors.tally };

    fn agrees(&mut self, place: Cursor) -> bool {
        let outcome = outcome(place, &mut self.rooms);
        self.tally.count(outcome);
        agrees(outcome)
    }

    #[tactic(auto, unfolding(crate::specs::Counts::counts, test_replay::specs::Report::bytes))]
    fn put_counts(&self, report: &mut Report) {
        let text = b"# records, # differences\n# sources assembled\n# images listed\n";
        self.tally.put(text, report);
    }
}

fn main(rt: HostRuntime) -> io::Result<()> {
    let mut list = room::<786432>();
    let n = read_full(&mut rt.stdin(), &mut list)?;
    // a source that is too long by 64 bytes
    let mut source = room::<1048640>();
    // an image of one word too many, and what is looked at after it
    let mut image = room::<131328>();
    let mut image_buffer = room::<131328>();
    // the text of 32,768 words, and what is looked at after it
    let mut text_buffer = room::<721152>();
    let rooms = Rooms {
        source: &mut source,
        image: &mut image,
        image_buffer: &mut image_buffer,
        text_buffer: &mut text_buffer,
    };
    let mut vectors = Vectors {
        rooms,
        tally: Tally::new(),
    };
    // a report in which every record differs
    let mut room = room::<131072>();
    let mut report = Report::new(&mut room);
    compare(&mut vectors, &list[..n], &mut report);
    rt.stdout().write_all(report.text())
}
