// What is called of the crates under test, and what it answers.
ghost use Rattle.std.specs.Prelude.{◌≡◌};
ghost use Rattle.refusal.specs.Refusals.{number_of};
ghost use Rattle.test_vectors.specs.Given.{answer_given, header_given, text_given};

use crate::answer::{Answer, AssembleAnswer, ListAnswer, OpenAnswer};
use image::program::Opened;
use image_assembler::assembler::{AssembleError, Assembled};
use image_labels::label::Label;
use image_listing::disassembler::ListError;
use refusal::refusal::Refusal;

// The three operations, as they are called.
pub trait Operations {
    fn assemble(source: &[u8], table: &mut [Label], image: &mut [u8]) -> AssembleAnswer;

    fn open(image: &[u8]) -> OpenAnswer;

    fn list(image: &[u8], text: &mut [u8]) -> ListAnswer;
}

// The library's.
pub struct Library;

impl Operations for Library {
    fn assemble(source: &[u8], table: &mut [Label], image: &mut [u8]) -> AssembleAnswer {
        assembled(image_assembler::assembler::assemble(source, table, image))
    }

    fn open(image: &[u8]) -> OpenAnswer {
        opened(image::program::open(image))
    }

    fn list(image: &[u8], text: &mut [u8]) -> ListAnswer {
        listed(image_listing::disassembler::list(image, text))
    }
}

// Those of `capi`, which the exported ones call. Each writes its answer over an array.
pub struct Exports;

impl Operations for Exports {
    fn assemble(source: &[u8], table: &mut [Label], image: &mut [u8]) -> AssembleAnswer {
        let mut values = [0; 8];
        let number = u64::from(capi::zkasm_assemble(source, table, image, &mut values));
        Answer { number, values }
    }

    fn open(image: &[u8]) -> OpenAnswer {
        let mut values = [0; 12];
        let number = u64::from(capi::zkasm_open(image, &mut values));
        Answer { number, values }
    }

    fn list(image: &[u8], text: &mut [u8]) -> ListAnswer {
        let mut values = [0; 3];
        let number = u64::from(capi::zkasm_list(image, text, &mut values));
        Answer { number, values }
    }
}

// A refusal as the list has it. The function of `capi` is not called, which is under test.
fn number(refusal: Refusal) -> u64
    ensures { result ≡ number_of refusal }
{
    u64::from(u8::from(refusal))
}

// The order of the values is written out here, as in `capi`, whose own order is under test. This and the next two are no conversions: their names
// say which operation's order it is.
#[tactic(auto, unfolding(crate::specs::Given::answer_given))]
fn assembled(answer: Result<Assembled, AssembleError>) -> AssembleAnswer
    ensures { result ≡ answer_given answer }
{
    match answer {
        Ok(accepted) => {
            let config = accepted.config;
            Answer {
                number: 0,
                values: [
                    accepted.words as u64,
                    accepted.labels as u64,
                    u64::from(config.limb_bits),
                    u64::from(config.data_limbs),
                    u64::from(config.addr_limbs),
                    0,
                    0,
                    0,
                ],
            }
        }
        Err(
            AssembleError::Refused {
                refusal,
                rust_line,
                line,
                labels,
            },
        ) => Answer {
            number: number(refusal),
            values: [0, labels as u64, 0, 0, 0, rust_line as u64, line as u64, 0],
        },
        Err(AssembleError::TooShort { labels, needed }) => Answer {
            number: number(Refusal::ImageTooShort),
            values: [0, labels as u64, 0, 0, 0, 0, 0, needed as u64],
        },
    }
}

#[tactic(auto, unfolding(crate::specs::Given::header_given))]
fn opened(answer: Result<Opened, Refusal>) -> OpenAnswer
    ensures { result ≡ header_given answer }
{
    match answer {
        Ok(Opened { header, code_end }) => {
            let config = header.config;
            Answer {
                number: 0,
                values: [
                    u64::from(header.magic),
                    u64::from(header.version),
                    u64::from(config.limb_bits),
                    u64::from(config.data_limbs),
                    u64::from(config.addr_limbs),
                    u64::from(header.flags),
                    u64::from(header.entry_point),
                    u64::from(header.code_size),
                    u64::from(header.data_size),
                    u64::from(header.bss_size),
                    u64::from(header.stack_size),
                    code_end as u64,
                ],
            }
        }
        Err(refusal) => Answer {
            number: number(refusal),
            values: [0; 12],
        },
    }
}

#[tactic(auto, unfolding(crate::specs::Given::text_given))]
fn listed(answer: Result<usize, ListError>) -> ListAnswer
    ensures { result ≡ text_given answer }
{
    match answer {
        Ok(length) => Answer {
            number: 0,
            values: [length as u64, 0, 0],
        },
        Err(ListError::Refused(refusal)) => Answer {
            number: number(refusal),
            values: [0; 3],
        },
        Err(ListError::Faulty { refusal, index }) => Answer {
            number: number(refusal),
            values: [0, index as u64, 0],
        },
        Err(ListError::TooShort(needed)) => Answer {
            number: number(Refusal::TextTooShort),
            values: [0, 0, needed as u64],
        },
    }
}
