// A source's record: assembled with several tables and buffers, and its image opened, listed and assembled again. Sources and images differ in
// what is lent and where an answer has the needed length, so each has functions of its own. The buffers are handed on one by one, and not as
// `Rooms`, in whose other rooms what is wanted stands.
use crate::answer::{Answer, AssembleAnswer, IMAGE_TOO_SHORT, OpenAnswer, TABLE_FULL};
use crate::calls::{Exports, Library, Operations};
use crate::lines::{label, skip_labels};
use crate::record::{Assembling, Image, Listing, header};
use crate::room;
use crate::table::{ENTRIES, blank_table, has_labels};

// Whether assembling answers as wanted, the table then has the list's labels, and the buffer the image.
fn is_assembled_by<O: Operations>(wanted: Assembling, buffer: &mut [u8]) -> bool {
    if ENTRIES < wanted.table {
        return false;
    }
    let end = room::guarded(wanted.room);
    room::fill(buffer, end);
    let n = room::part(buffer, wanted.room);
    let mut table = blank_table();
    let answer = O::assemble(wanted.source, &mut table[..wanted.table], &mut buffer[..n]);
    answer.is(wanted.answer)
        && has_labels(&table, wanted.labels, wanted.answer.labels())
        && room::holds(buffer, wanted.image, end)
}

// By the library, and by the functions of `capi`.
pub(crate) fn is_assembled(wanted: Assembling, buffer: &mut [u8]) -> bool {
    is_assembled_by::<Library>(wanted, buffer) && is_assembled_by::<Exports>(wanted, buffer)
}

// The same source with a table for fewer labels than it has: it is refused on the line of the next one.
fn full(wanted: Assembling, table: u64) -> Assembling {
    let mut cursor = wanted.labels;
    skip_labels(&mut cursor, table);
    let line = room::line_of(wanted.source, label(&mut cursor).start);
    Assembling {
        table: table as usize,
        answer: Answer {
            number: TABLE_FULL,
            values: [0, table, 0, 0, 0, line, line, 0],
        },
        image: b"",
        ..wanted
    }
}

// With a table of just so many entries as there are labels, and, if there are any, of one less and of none.
fn is_assembled_with_tables(wanted: Assembling, buffer: &mut [u8]) -> bool {
    let labels = wanted.answer.labels();
    let enough = Assembling {
        table: labels as usize,
        ..wanted
    };
    if !is_assembled(enough, buffer) {
        return false;
    }
    labels == 0
        || (is_assembled(full(wanted, labels - 1), buffer) && is_assembled(full(wanted, 0), buffer))
}

// With buffers that are too short, by one byte and by all: the labels are entered nevertheless.
fn is_too_short(wanted: Assembling, needed: u64, buffer: &mut [u8]) -> bool {
    let refused = Assembling {
        answer: Answer {
            number: IMAGE_TOO_SHORT,
            values: [0, wanted.answer.labels(), 0, 0, 0, 0, 0, needed],
        },
        image: b"",
        ..wanted
    };
    is_assembled(refused.with_room((needed as usize).wrapping_sub(1)), buffer)
        && is_assembled(refused.with_room(0), buffer)
}

// With buffers of all lengths that matter: where a source is accepted, just enough, one more, one less and none; where its image
// is too long, one less and none; where it is refused for itself, none.
fn is_assembled_in_all(wanted: Assembling, buffer: &mut [u8]) -> bool {
    match wanted.answer.number {
        0 => {
            let needed = wanted.image.len();
            is_assembled(wanted.with_room(needed), buffer)
                && is_assembled(wanted.with_room(needed.wrapping_add(1)), buffer)
                && is_too_short(wanted, needed as u64, buffer)
        }
        IMAGE_TOO_SHORT => {
            let [.., needed] = wanted.answer.values;
            is_too_short(wanted, needed, buffer)
        }
        _ => is_assembled(wanted.with_room(0), buffer),
    }
}

// The header of an accepted source's image.
fn header_of(answer: AssembleAnswer) -> OpenAnswer {
    let [words, _, limb_bits, data_limbs, addr_limbs, ..] = answer.values;
    header([
        limb_bits,
        data_limbs,
        addr_limbs,
        0,
        0x1000,
        words.wrapping_mul(4),
        0,
        0,
        0x100000,
    ])
}

// Whether an accepted source's image is listed, and comes back from its text. The list has no text for it, so the text is kept, and it has to be
// the same with every buffer and to be assembled to the image again.
pub(crate) fn is_listed(
    assembled: AssembleAnswer,
    image: &[u8],
    kept: &mut [u8],
    image_buffer: &mut [u8],
    text_buffer: &mut [u8],
) -> bool {
    let answer = Library::list(image, text_buffer);
    if answer.is_refused() {
        return false;
    }
    let [length, ..] = answer.values;
    let length = length as usize;
    let wanted = Image {
        header: header_of(assembled),
        listing: Listing {
            image,
            room: room::guarded(length),
            answer,
            text: room::kept(text_buffer, kept, length),
        },
    };
    crate::images::agrees(wanted, image_buffer, text_buffer)
}

// Whether a source's record is answered as the list has it.
pub(crate) fn agrees(wanted: Assembling, buffer: &mut [u8]) -> bool {
    is_assembled(wanted, buffer)
        && is_assembled_with_tables(wanted, buffer)
        && is_assembled_in_all(wanted, buffer)
}
