// The three operations for programs in C or Rust, which `capi_c` exports in a static library; this library is for the tests, too, which no
// crate can be to a static one. Each returns the number of its refusal,
// 0 where there is none, and writes the other values of its answer over a lent array.
#![tactic(auto)]

ghost use Rattle.std.specs.Prelude.{◌≡◌};
ghost use Rattle.image_assembler.specs.Promised.{answer_meant};
ghost use Rattle.refusal.specs.Refusals.{number_of};
ghost use Rattle.text_lexical.specs.Names.{present};
ghost use Rattle.capi.specs.Promised.{AnswerGiven, AssembleCall, OpenCall, ListCall};

use image::program::Opened;
use image_assembler::assembler::{AssembleError, Assembled};
use image_labels::label::Label;
use image_listing::disassembler::ListError;
use refusal::refusal::Refusal;

// A refusal as C has it: no such call returns an enum. The tests have the line once more, since this one is under test.
fn number(refusal: Refusal) -> u32
    ensures { result ≡ number_of refusal }
{
    u32::from(u8::from(refusal))
}

// An answer of assembling, handed on in the order that C has. The tests write the order out for themselves, since this one is under test.
#[tactic(auto, unfolding(image::specs::Settings::settings))]
fn write_assembled(assembled: Result<Assembled, AssembleError>, answer: &mut [u64; 8]) -> u32
    ensures { AnswerGiven (answer_meant assembled) answer.new result }
{
    match assembled {
        Ok(
            Assembled {
                words,
                labels,
                config,
            },
        ) => {
            *answer = [
                words as u64,
                labels as u64,
                u64::from(config.limb_bits),
                u64::from(config.data_limbs),
                u64::from(config.addr_limbs),
                0,
                0,
                0,
            ];
            0
        }
        Err(
            AssembleError::Refused {
                refusal,
                rust_line,
                line,
                labels,
            },
        ) => {
            *answer = [0, labels as u64, 0, 0, 0, rust_line as u64, line as u64, 0];
            number(refusal)
        }
        Err(AssembleError::TooShort { labels, needed }) => {
            *answer = [0, labels as u64, 0, 0, 0, 0, 0, needed as u64];
            number(Refusal::ImageTooShort)
        }
    }
}

// The image of a source, and its labels: words, labels, limb_bits, data_limbs, addr_limbs, the Rust's line, the line, the needed length.
pub fn zkasm_assemble(
    source: &[u8],
    table: &mut [Label],
    image: &mut [u8],
    answer: &mut [u64; 8],
) -> u32
    ensures { AssembleCall present source.now table.old image.old table.new image.new answer.new result }
{
    let assembled = image_assembler::assembler::assemble(source, table, image);
    write_assembled(assembled, answer)
}

// The header of an image: its fields in their order, and where the code ends.
#[tactic(auto, unfolding(image::specs::Settings::settings))]
pub fn zkasm_open(image: &[u8], answer: &mut [u64; 12]) -> u32
    ensures { OpenCall image.now answer.new result }
{
    match image::program::open(image) {
        Err(refusal) => {
            *answer = [0; 12];
            number(refusal)
        }
        Ok(Opened { header, code_end }) => {
            let config = header.config;
            *answer = [
                u64::from(header.magic),
                u64::from(header.version),
                u64::from(config.limb_bits),
                u64::from(config.data_limbs),
                u64::from(config.addr_limbs),
                u64::from(header.flags),
                u64::from(header.entry_point),
                u64::from(header.code_size),
                u64::from(header.data_size),
                u64::from(header.bss_size),
                u64::from(header.stack_size),
                code_end as u64,
            ];
            0
        }
    }
}

// The text of an image: its length, the index of a faulty word, the needed length.
pub fn zkasm_list(image: &[u8], text: &mut [u8], answer: &mut [u64; 3]) -> u32
    ensures { ListCall image.now text.old text.new answer.new result }
{
    match image_listing::disassembler::list(image, text) {
        Ok(length) => {
            *answer = [length as u64, 0, 0];
            0
        }
        Err(ListError::Refused(refusal)) => {
            *answer = [0, 0, 0];
            number(refusal)
        }
        Err(ListError::Faulty { refusal, index }) => {
            *answer = [0, index as u64, 0];
            number(refusal)
        }
        Err(ListError::TooShort(needed)) => {
            *answer = [0, 0, needed as u64];
            number(Refusal::TextTooShort)
        }
    }
}
