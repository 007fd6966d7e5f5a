// What the program prints for an input.
ghost use Rattle.std.specs.Prelude.{◌≡◌, ◌≤◌, length};
ghost use Rattle.image.specs.Listing.{text_of, written, listing};
ghost use Rattle.refusal.specs.Refusals.{number_of};
ghost use Rattle.zkasm.specs.Zkasm.{most_input, image_room, text_room, refusal_text, program_output};
ghost use Rattle.zkasm.specs.Promised.{AssemblesInput, Prints};

use crate::stdin::{MOST_INPUT, ROOM};
use image::limits::{HEADER_SIZE, WORD_SIZE};
use image_assembler::assembler::{AssembleError, Assembled};
use image_labels::label::Label;
use refusal::refusal::Refusal;
use text_writer::sink::{Sink, Writer};

// Room for the image of every input: it has a line more at most than bytes. `image_length` says the same, but a constant calls no function.
const IMAGE_ROOM: usize = HEADER_SIZE + WORD_SIZE * ROOM;

// Room for its text: three settings and as many words, of at most 22 bytes a line. There is no heap, so the buffer is lent, and each function
// that prints into it asks for the room.
pub const TEXT_ROOM: usize = 22 * (3 + ROOM);

// `refused N line L`
fn write_refusal(out: &mut [u8], refusal: Refusal, line: usize) -> usize
    requires { text_room ≤ length out.old }
    ensures { Prints (refusal_text (number_of refusal) line) out.old out.new result }
{
    let mut writer = Writer { out, at: 0 };
    writer.put_bytes(b"refused ");
    writer.put_decimal(u64::from(u8::from(refusal)));
    writer.put_bytes(b" line ");
    writer.put_decimal(line as u64);
    writer.put(b'\n');
    writer.at
}

// The text of an image that has one, and for which there is room.
fn write_listing(image: &[u8], out: &mut [u8]) -> usize
    requires listed { listing image.now (length out.old) ≡ written (text_of image.now) }
    requires text_room_in { length (text_of image.now) ≤ length out.old }
    ensures { Prints (text_of image.now) out.old out.new result }
{
    // no such image is refused
    image_listing::disassembler::list(image, out).unwrap()
}

// How many labels an input may have.
const TABLE_ROOM: usize = 1024;

fn blank_table() -> [Label; TABLE_ROOM] {
    let blank = Label {
        start: 0,
        length: 0,
        address: 0,
    };
    [blank; TABLE_ROOM]
}

// An input assembled, with a table of so many labels. It is told to be a call: in line, an input that is too long would take stack for table and
// buckets too.
#[inline(never)]
fn assemble(input: &[u8], image: &mut [u8]) -> Result<Assembled, AssembleError>
    ensures { AssemblesInput input.now image.old image.new result }
{
    let mut table = blank_table();
    image_assembler::assembler::assemble(input, &mut table, image)
}

// What is printed for an input that is not too long, by way of an image buffer.
fn report_source(input: &[u8], image: &mut [u8], out: &mut [u8]) -> usize
    requires input_fits { length input.now ≤ most_input }
    requires image_room_in { image_room ≤ length image.old }
    requires text_room_in { text_room ≤ length out.old }
    ensures { Prints (program_output input.now) out.old out.new result }
{
    match assemble(input, image) {
        Ok(assembled) => {
            let length = image::program::image_length(assembled.words);
            write_listing(&image[..length], out)
        }
        Err(AssembleError::Refused { refusal, line, .. }) => write_refusal(out, refusal, line),
        // the image buffer holds the image of every such input
        Err(AssembleError::TooShort { .. }) => unreachable!(),
    }
}

// What is printed for an input.
#[tactic(auto, using(crate::proofs::Printing::output_long))]
pub fn report(input: &[u8], out: &mut [u8]) -> usize
    requires { text_room ≤ length out.old }
    ensures { Prints (program_output input.now) out.old out.new result }
{
    if MOST_INPUT < input.len() {
        return write_refusal(out, Refusal::SourceTooLong, 0);
    }
    let mut image = [0u8; IMAGE_ROOM];
    report_source(input, &mut image, out)
}
