// The second walk looks up the labels that instructions name, and puts the words: to be counted, where it is a check for labels that are not
// there or too far, or to be written after the header.
ghost use Rattle.std.specs.Prelude.{◌≡◌, ◌≤◌};
ghost use Rattle.text_lexical.specs.Names.{present};
ghost use Rattle.text_lexical.specs.Promised.{whole_meant, whole_for};
ghost use Rattle.instruction.specs.Words.{word_of};
ghost use Rattle.instruction.specs.Promised.{form_meant, operands_with, parts_meant, spelled_in, draft_meant, DraftSettled};
ghost use Rattle.image.specs.Assembling.{reads, most_words, distance, in_reach, fault_in};
ghost use Rattle.image.specs.Promised.{settings_meant};
ghost use Rattle.image_passes.specs.Promised.{addresses, Entered, AmountInText, number_of_draft, bytes_until, refused_for, PutsWords, Ready, Fills};

use crate::first_pass::{Found, Stopped};
use image::config::Config;
use image_labels::label::Labels;
use image_line::line::Effect;
use instruction::form::Form;
use instruction::instruction::{Amount, Draft, Instruction, Operands};
use refusal::refusal::Refusal;
use text_lexical::number::Whole;
use text_writer::sink::{Length, Sink, Writer};

// The length that an image buffer must have, where it is shorter: the error of a `Result`, which says what its number is.
#[derive(Clone, Copy)]
pub struct TooShort {
    pub needed: usize,
}

// The number that is the distance to an address from the word that follows so many words.
fn distance(words: usize, address: u64) -> Whole
    requires { words ≤ most_words }
    ensures { result ≡ whole_for (distance words address) }
{
    let own = image::program::address_after(words);
    if own <= address {
        return Whole::NotNegative(address - own);
    }
    Whole::Negative(own - address)
}

// Whether a form has room for a distance. A branch's field may be too small for it; that of `jal` never is.
fn in_reach(form: Form, distance: Whole) -> bool
    ensures { result ≡ in_reach (form_meant form) (whole_meant distance) }
{
    form != Form::Branch || form.range().holds(distance)
}

// The number of a draft after so many words, where labels have been entered; or why it has none (33, 34).
fn resolved(labels: &Labels, words: usize, draft: Draft) -> Result<Whole, Refusal>
    requires entered { Entered present labels.now }
    requires few { words ≤ most_words }
    requires settled { DraftSettled (spelled_in labels.now.source.now) draft }
    requires label_in_text { AmountInText labels.now.source.now draft.amount }
    ensures { result ≡ number_of_draft (addresses present labels.now.source.now) words (draft_meant (spelled_in labels.now.source.now) draft) }
{
    let label = match draft.amount {
        Amount::Number(number) => return Ok(number),
        Amount::Label(label) => label,
    };
    let Some(address) = labels.address_of(label.start, label.length) else {
        return Err(Refusal::NoSuchLabel);
    };
    let number = distance(words, address);
    if in_reach(draft.mnemonic.form(), number) {
        Ok(number)
    } else {
        Err(Refusal::LabelTooFar)
    }
}

// The word of a draft with its number.
fn word_of(draft: Draft, number: Whole) -> u32
    ensures { result ≡ word_of (parts_meant (record { mnemonic = draft.mnemonic; operands = operands_with draft.registers number })) }
{
    let operands = Operands::new(draft.registers, number);
    instruction_encoder::encoder::encode(Instruction::from_parts(draft.mnemonic, operands))
}

// The words of all lines are put, up to the first line whose label is refused. It begins where the first walk does, with variables of its
// own in place of a `Cursor`: what that walk has found besides the settings and the count of words is not asked again.
fn second_pass<S: Sink>(labels: &Labels, sink: &mut S) -> Result<(), Stopped>
    requires entered { Entered present labels.now }
    requires room { S.Fits sink.old (bytes_until present labels.now.source.now) }
    ensures { PutsWords S.Took present labels.now.source.now sink.old sink.new result }
{
    let source = labels.source;
    let mut at = 0;
    let mut line = 1;
    let mut words = 0;
    let mut config = Config::begin();
    // where a line ends is found by reading it, so there is no list of lines to walk
    loop {
        let read = image_line::line::read_line(source, at, config);
        match read.effect {
            Ok(Effect::Codes(draft)) => {
                let number = resolved(labels, words, draft).map_err(
                    |refusal| crate::first_pass::line_refused(refusal, line),
                )?;
                sink.put_bytes(&word_of(draft, number).to_le_bytes());
                words += 1;
            }
            Ok(Effect::Sets(changed)) => config = changed,
            Ok(Effect::Nothing) => {}
            // the first walk has refused no line
            Err(_) => {}
        }
        match image_line::line::next_line(source.len(), read.end) {
            None => return Ok(()),
            Some(next) => at = next,
        }
        line += 1;
    }
}

// Whether each label that an instruction names has been entered and is in reach, or the first line where one is not.
pub fn check_targets(labels: &Labels) -> Result<(), Stopped>
    requires { Entered present labels.now }
    ensures { result ≡ refused_for (fault_in (reads present labels.now.source.now)) }
{
    second_pass(labels, &mut Length { length: 0 })
}

// The image of a source that has been read and whose labels are in reach: the header and the words, if the buffer is long enough for all of it.
pub fn write_image(labels: &Labels, image: &mut [u8], found: Found) -> Result<(), TooShort>
    requires entered { Entered present labels.now }
    requires ready { Ready present labels.now.source.now found.words (settings_meant found.config) }
    ensures { Fills present labels.now.source.now found.words image.old image.new result }
{
    let needed = image::program::image_length(found.words);
    if image.len() < needed {
        return Err(TooShort { needed });
    }
    let mut writer = Writer { out: image, at: 0 };
    let code_size = image::program::code_size(found.words) as u32;
    image::program::put_header(&mut writer, found.config, code_size);
    // each label that is named has been entered and is in reach
    let _ = second_pass(labels, &mut writer);
    Ok(())
}
