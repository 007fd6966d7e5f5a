// An image's record: opened, listed with several buffers, and the text assembled again. Its functions are not those of `sources`, and its buffers
// are handed on one by one, for the reasons given there.
use crate::answer::{Answer, OpenAnswer, TEXT_TOO_SHORT};
use crate::calls::{Exports, Library, Operations};
use crate::record::{Assembling, Image, Listing};
use crate::room;
use test_replay::cursor::Cursor;

// Whether listing answers as wanted, and the buffer then has the text.
fn is_listed_by<O: Operations>(wanted: Listing, buffer: &mut [u8]) -> bool {
    let end = room::guarded(wanted.room);
    room::fill(buffer, end);
    let n = room::part(buffer, wanted.room);
    O::list(wanted.image, &mut buffer[..n]).is(wanted.answer)
        && room::holds(buffer, wanted.text, end)
}

// By the library, and by the function of `capi`.
fn is_listed(wanted: Listing, buffer: &mut [u8]) -> bool {
    is_listed_by::<Library>(wanted, buffer) && is_listed_by::<Exports>(wanted, buffer)
}

// With a buffer that is one byte short, and with none.
fn is_too_short(wanted: Listing, needed: u64, buffer: &mut [u8]) -> bool {
    let refused = Listing {
        answer: Answer {
            number: TEXT_TOO_SHORT,
            values: [0, 0, needed],
        },
        text: b"",
        ..wanted
    };
    is_listed(refused.with_room((needed as usize).wrapping_sub(1)), buffer)
        && is_listed(refused.with_room(0), buffer)
}

// With buffers of all lengths that matter: where an image is listed, just enough, one more, one less and none; where its text is
// too long, one less and none; where it is refused for itself, none.
fn is_listed_in_all(wanted: Listing, buffer: &mut [u8]) -> bool {
    let [length, _, needed] = wanted.answer.values;
    match wanted.answer.number {
        0 => {
            let enough = length as usize;
            is_listed(wanted.with_room(enough), buffer)
                && is_listed(wanted.with_room(enough.wrapping_add(1)), buffer)
                && is_too_short(wanted, length, buffer)
        }
        TEXT_TOO_SHORT => is_too_short(wanted, needed, buffer),
        _ => is_listed(wanted.with_room(0), buffer),
    }
}

// Whether an image has this header, also by the function of `capi`.
fn is_opened(image: &[u8], header: OpenAnswer) -> bool {
    Library::open(image).is(header) && Exports::open(image).is(header)
}

// Whether a text is assembled to its image, with no table and with an image buffer that is just long enough.
fn comes_back(image: Image, buffer: &mut [u8]) -> bool {
    let Image { header, listing } = image;
    let [_, _, limb_bits, data_limbs, addr_limbs, _, _, code_size, ..] = header.values;
    let wanted = Assembling {
        source: listing.text,
        table: 0,
        room: listing.image.len(),
        answer: Answer {
            number: 0,
            values: [code_size / 4, 0, limb_bits, data_limbs, addr_limbs, 0, 0, 0],
        },
        labels: Cursor { list: b"", at: 0 },
        image: listing.image,
    };
    crate::sources::is_assembled(wanted, buffer)
}

// Whether an image is opened and listed as wanted, and comes back from its text.
pub(crate) fn agrees(wanted: Image, image_buffer: &mut [u8], text_buffer: &mut [u8]) -> bool {
    let listing = wanted.listing;
    is_opened(listing.image, wanted.header)
        && is_listed(listing, text_buffer)
        && is_listed_in_all(listing, text_buffer)
        && (listing.answer.is_refused() || comes_back(wanted, image_buffer))
}
