// Listing: the text of an image.
ghost use Rattle.std.specs.Prelude.{◌≡◌, ◌++◌, [], ◌∷◌};
ghost use mathlib.Core.List.{flat_map};
ghost use Rattle.text_lexical.specs.Numbers.{decimal};
ghost use Rattle.image.specs.Listing.{words_of, line_text, settings_text, word_text, is_usual};
ghost use Rattle.image.specs.Promised.{settings_meant, header_meant};
ghost use Rattle.image_listing.specs.Promised.{PutsWords, Lists};

use image::config::Config;
use image::limits::{ENTRY, HEADER_SIZE, MOST_CODE, STACK_SIZE, WORD_SIZE};
use image::program::ProgramHeader;
use refusal::refusal::Refusal;
use text_writer::sink::{Length, Sink, Writer};

// Why an image has no text.
#[derive(Clone, Copy)]
pub enum ListError {
    // the image: opening's refusals, 29
    Refused(Refusal),
    // a word: 30, 31
    Faulty { refusal: Refusal, index: usize },
    // 32: the length that is needed
    TooShort(usize),
}

// Whether a header has what assembling writes beside the settings and the code's size: if not, 29.
#[tactic(auto, unfolding(image::specs::Listing::is_usual, image::specs::Program::entry, image::specs::Program::stack_size, image::specs::Assembling::most_words))]
fn is_usual(header: ProgramHeader) -> bool
    ensures { result ≡ is_usual (header_meant header) }
{
    header.flags == 0
        && header.entry_point == ENTRY
        && header.data_size == 0
        && header.bss_size == 0
        && header.stack_size == STACK_SIZE
        && header.code_size <= MOST_CODE
}

fn put_line_end<S: Sink>(sink: &mut S)
    requires { S.Fits sink.old (10 ∷ []) }
    ensures { S.Took sink.old (10 ∷ []) sink.new }
{
    sink.put(b'\n');
}

// A line of a setting: `front` is all before its value.
fn put_setting<S: Sink>(sink: &mut S, front: &[u8], value: u8)
    requires { S.Fits sink.old (line_text (front.now ++ decimal value)) }
    ensures { S.Took sink.old (line_text (front.now ++ decimal value)) sink.new }
{
    sink.put_bytes(front);
    sink.put_decimal(u64::from(value));
    put_line_end(sink);
}

fn put_settings<S: Sink>(sink: &mut S, config: Config)
    requires { S.Fits sink.old (settings_text (settings_meant config)) }
    ensures { S.Took sink.old (settings_text (settings_meant config)) sink.new }
{
    put_setting(sink, b".config limb_bits ", config.limb_bits);
    put_setting(sink, b".config data_limbs ", config.data_limbs);
    put_setting(sink, b".config addr_limbs ", config.addr_limbs);
}

// The lines of all words of a code part, or the first word that is not an instruction's.
fn put_words<S: Sink>(sink: &mut S, code: &[u8]) -> Result<(), ListError>
    requires { S.Fits sink.old (flat_map word_text (words_of code.now)) }
    ensures { PutsWords (words_of code.now) result (S.Took sink.old (flat_map word_text (words_of code.now)) sink.new) }
{
    let (words, _) = code.as_chunks::<WORD_SIZE>();
    for (index, word) in words.iter().enumerate() {
        match instruction_codec::encoder::decode(u32::from_le_bytes(*word)) {
            // a closure for `map_err` would hold `index` only to hand it on, and is no shorter than this arm
            Err(refusal) => return Err(ListError::Faulty { refusal, index }),
            Ok(instruction) => {
                instruction_display::display::put_instruction(sink, instruction);
                put_line_end(sink);
            }
        }
    }
    Ok(())
}

// The text of settings and a code part.
fn put_text<S: Sink>(sink: &mut S, config: Config, code: &[u8]) -> Result<(), ListError>
    requires { S.Fits sink.old (settings_text (settings_meant config) ++ flat_map word_text (words_of code.now)) }
    ensures { PutsWords (words_of code.now) result
        (S.Took sink.old (settings_text (settings_meant config) ++ flat_map word_text (words_of code.now)) sink.new) }
{
    put_settings(sink, config);
    put_words(sink, code)
}

// The text of an image: opening's refusals, 29, 30, 31, 32.
pub fn list(image: &[u8], text: &mut [u8]) -> Result<usize, ListError>
    ensures { Lists image.now text.old text.new result }
{
    let opened = image::program::open(image).map_err(ListError::Refused)?;
    if !is_usual(opened.header) {
        return Err(ListError::Refused(Refusal::UnusualHeader));
    }
    let config = opened.header.config;
    let code = &image[HEADER_SIZE..opened.code_end];
    let mut length = Length { length: 0 };
    put_text(&mut length, config, code)?;
    let needed = length.length;
    if text.len() < needed {
        return Err(ListError::TooShort(needed));
    }
    let mut writer = Writer { out: text, at: 0 };
    // No word is refused now: each has been measured.
    put_text(&mut writer, config, code)?;
    Ok(needed)
}
