// Reading a line and writing a text with the crates under test.
ghost use Rattle.std.specs.Prelude.{◌≡◌, ◌≤◌, length, take};
ghost use Rattle.test_words.specs.Rooms.{AnyText, Went, room_laws};

use instruction::instruction::{Amount, Draft, Instruction, Operands};
use instruction_display::display::put_instruction;
use instruction_operands::assembler::parse_instruction;
use itoa::Buffer;
use refusal::refusal::Refusal;
use test_replay::report::Report;
use text::parser::tokenize;
use text_lexical::bytes::{Margin, run_end};
use text_lexical::number::Whole;
use text_writer::sink::Sink;

// The text of an instruction in the room: how long it was said to be, and where it ends.
#[derive(Clone, Copy)]
pub struct Text {
    pub length: usize,
    pub end: usize,
}

// What the line that begins at `from` has of an instruction, its mnemonic the token at `place`, which the list has as a digit: a type of three
// places would be made here alone, and unmade at the call.
pub(crate) fn read(text: &[u8], from: usize, place: usize) -> Result<Draft, Refusal>
    requires in_text { from ≤ length text.now }
    requires place_in_range { place ≤ 2 }
{
    let line = tokenize(text, run_end::<Margin>(text, from))?;
    parse_instruction(text, &line, place)
}

// The instruction of a line by itself: the distance to a label, which other lines tell, is 0.
pub(crate) fn instruction_of(draft: Draft) -> Instruction {
    let number = match draft.amount {
        Amount::Number(number) => number,
        Amount::Label(_) => Whole::default(),
    };
    Instruction::from_parts(draft.mnemonic, Operands::new(draft.registers, number))
}

// Takes a text into a room as far as the room goes, and counts all of it. So nothing has to be known of a text before it is put.
#[derive(Drop)]
pub struct Room<'a> {
    pub report: Report<'a>,
    pub length: usize,
}

impl Sink for Room<'_> {
    ghost Fits = { AnyText };

    ghost Took = { Went };

    fn put(&mut self, byte: u8) {
        self.put_bytes(&[byte]);
    }

    fn put_bytes(&mut self, bytes: &[u8]) {
        self.report.put(bytes);
        self.length = self.length.wrapping_add(bytes.len());
    }

    // By `put_bytes`, which counts the digits too: the report's own `put_number` does not.
    fn put_decimal(&mut self, n: u64) {
        let mut buffer = Buffer::new();
        self.put_bytes(buffer.format(n).as_bytes());
    }

    ghost laws = { room_laws };
}

// Writes an instruction's text into the room, after eight bytes that it leaves. The promises are what `&room[..end]` asks for. With
// `&mut [u8; 96]` in place of the slice and its length, the proof that the text ends in the room does not close.
pub(crate) fn write(instruction: Instruction, room: &mut [u8]) -> Text
    requires { length room.old ≡ 96 }
    ensures end_in_bounds { result.end ≤ length room.new }
    ensures slice_end { result.end ≡ length (take result.end room.new) }
{
    let mut sink = Room {
        report: Report { room, end: 8 },
        length: 0,
    };
    put_instruction(&mut sink, instruction);
    Text {
        length: sink.length,
        end: sink.report.end,
    }
}
