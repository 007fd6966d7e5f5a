// Reading a record: what is asked, what is lent, and the answer. Nothing here calls a crate under test.
use crate::answer::{Answer, AssembleAnswer, ListAnswer, OpenAnswer};
use crate::lines::{number, numbers, skip_labels};
use crate::pieces::{Escaped, Hex, put_lines};
use test_replay::cursor::Cursor;

// What assembling is asked with, how much of the table and of the buffer is lent, and what it has to give: the answer, the labels that
// the list has from a place on, and what the buffer then begins with.
#[derive(Clone, Copy)]
pub struct Assembling<'a> {
    pub source: &'a [u8],
    pub table: usize,
    pub room: usize,
    pub answer: AssembleAnswer,
    pub labels: Cursor<'a>,
    pub image: &'a [u8],
}

impl<'a> Assembling<'a> {
    // The same with another buffer. A trait over this type and `Listing` would be longer than the two lines.
    pub(crate) fn with_room(self, room: usize) -> Assembling<'a> {
        Assembling { room, ..self }
    }
}

// What listing is asked with, how much of the buffer is lent, and what it has to give: the answer, and what the buffer then begins with.
#[derive(Clone, Copy)]
pub struct Listing<'a> {
    pub image: &'a [u8],
    pub room: usize,
    pub answer: ListAnswer,
    pub text: &'a [u8],
}

impl<'a> Listing<'a> {
    // The same with another buffer, as that of `Assembling`.
    pub(crate) fn with_room(self, room: usize) -> Listing<'a> {
        Listing { room, ..self }
    }
}

// An image's record: what opening has to answer, and what listing.
#[derive(Clone, Copy)]
pub struct Image<'a> {
    pub header: OpenAnswer,
    pub listing: Listing<'a>,
}

// `a WORDS LABELS LIMB_BITS DATA_LIMBS ADDR_LIMBS`, or `r NUMBER RUST_LINE TRUE_LINE LABELS NEEDED`.
fn assembled_at(cursor: &mut Cursor) -> Option<AssembleAnswer> {
    if let Some(counts) = numbers::<5>(cursor, b'a') {
        let [words, labels, limb_bits, data_limbs, addr_limbs] = counts;
        return Some(Answer {
            number: 0,
            values: [words, labels, limb_bits, data_limbs, addr_limbs, 0, 0, 0],
        });
    }
    let [number, rust_line, line, labels, needed] = numbers::<5>(cursor, b'r')?;
    Some(Answer {
        number,
        values: [0, labels, 0, 0, 0, rust_line, line, needed],
    })
}

// A header, of the fields `LIMB_BITS DATA_LIMBS ADDR_LIMBS FLAGS ENTRY CODE_SIZE DATA_SIZE BSS STACK`. Magic and version are those that every
// image has, and the code ends where its size says.
pub(crate) fn header(fields: [u64; 9]) -> OpenAnswer {
    let [.., code_size, _, _, _] = fields;
    let mut values = [0; 12];
    values[0] = 0x52494B5A;
    values[1] = 0x00030004;
    values[2..11].copy_from_slice(&fields);
    values[11] = code_size.wrapping_add(32);
    Answer { number: 0, values }
}

// `o FIELDS`, or `q NUMBER`.
fn opened_at(cursor: &mut Cursor) -> Option<OpenAnswer> {
    if let Some(fields) = numbers::<9>(cursor, b'o') {
        return Some(header(fields));
    }
    let number = number(cursor, b'q')?;
    Some(Answer {
        number,
        values: [0; 12],
    })
}

// `y LENGTH`, or `z NUMBER INDEX NEEDED`.
fn listed_at(cursor: &mut Cursor) -> Option<ListAnswer> {
    if let Some(length) = number(cursor, b'y') {
        return Some(Answer {
            number: 0,
            values: [length, 0, 0],
        });
    }
    let [number, index, needed] = numbers::<3>(cursor, b'z')?;
    Some(Answer {
        number,
        values: [0, index, needed],
    })
}

// How long an image buffer is that is large enough: the shortest instruction is longer than its word.
fn ample(source: &[u8]) -> usize {
    source.len().min(131072) + 32
}

// Reads a source's record, if it is whole. The source goes into one room, the image into the other.
pub(crate) fn source_at<'a>(
    place: Cursor<'a>,
    source: &'a mut [u8],
    image: &'a mut [u8],
) -> Option<Assembling<'a>> {
    let mut cursor = place;
    let source = put_lines::<Escaped>(&mut cursor, source);
    let table = number(&mut cursor, b't').unwrap_or(1024) as usize;
    let room = match number(&mut cursor, b'b') {
        Some(room) => room as usize,
        None => ample(source),
    };
    let answer = assembled_at(&mut cursor)?;
    let labels = cursor;
    skip_labels(&mut cursor, answer.labels());
    let image = put_lines::<Hex>(&mut cursor, image);
    if image.len() as u64 != answer.image_length() || !cursor.is_record_end() {
        return None;
    }
    Some(Assembling {
        source,
        table,
        room,
        answer,
        labels,
        image,
    })
}

// Reads an image's record, if it is whole. The text goes into one room, the image into the other.
pub(crate) fn image_at<'a>(
    place: Cursor,
    text: &'a mut [u8],
    image: &'a mut [u8],
) -> Option<Image<'a>> {
    let mut cursor = place;
    let image = put_lines::<Hex>(&mut cursor, image);
    let room = number(&mut cursor, b'n')?;
    let header = opened_at(&mut cursor)?;
    let answer = listed_at(&mut cursor)?;
    let text = put_lines::<Escaped>(&mut cursor, text);
    let [length, ..] = answer.values;
    if text.len() as u64 != length || !cursor.is_record_end() {
        return None;
    }
    Some(Image {
        header,
        listing: Listing {
            image,
            room: room as usize,
            answer,
            text,
        },
    })
}
