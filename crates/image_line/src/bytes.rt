// The bytes of a line as operands are read from them: a register, a number, a label or a mark, past blanks. Anything else is left to the record
// of the line's tokens.
ghost use Rattle.std.specs.Prelude.{◌≡◌, ◌+◌, ◌≤◌, length, drop};
ghost use Rattle.text_lexical.specs.Bytes.{blank, run};

use instruction::form::Mark;
use instruction::instruction::{Amount, Target};
use instruction_operands::source::OperandSource;
use text_lexical::bytes::Blank;
use text_lexical::number::NumberRange;
use text_lexical::register::Register;

// The bytes of a line from a place on.
#[derive(Drop)]
pub(crate) struct Bytes<'a> {
    pub(crate) text: &'a [u8],
    pub(crate) at: usize,
    ghost in_text: { at ≤ length text.now },
}

impl Bytes<'_> {
    // Where the blanks that stand here end.
    fn past_blanks(&self) -> usize
        ensures { result ≡ self.now.at + run blank (drop self.now.at self.now.text.now) }
    {
        text_lexical::bytes::run_end::<Blank>(self.text, self.at)
    }
}

// Something else stands at a place, which is left to the record.
#[derive(Drop)]
pub(crate) struct Other;

impl OperandSource for Bytes<'_> {
    ghost use Rattle.std.specs.Prelude.{⊤};
    ghost use Rattle.text_lexical.specs.Names.{present};
    ghost use Rattle.image_line.specs.Promised.{BytesTook, bytes_spell, BytesStand};
    ghost use Rattle.image_line.specs.Laws.{bytes_laws};

    type Error = Other;

    ghost Took = { BytesTook present };

    ghost Refuses = { λ s label ps e. ⊤ };

    ghost Spells = { bytes_spell };

    ghost Stands = { BytesStand present };

    fn register(&mut self) -> Result<Register, Other> {
        let at = self.past_blanks();
        let word = text_lexical::name::register_word(self.text, at).ok_or(Other)?;
        self.at = word.end;
        Ok(word.register)
    }

    fn amount(&mut self, range: NumberRange, label: bool) -> Result<Amount, Other> {
        let start = self.past_blanks();
        if let Some(found) = text::parser::number_at(self.text, start, range) {
            self.at = found.end;
            return Ok(Amount::Number(found.number));
        }
        if !label {
            return Err(Other);
        }
        let length = text::parser::identifier_length(self.text, start).ok_or(Other)?;
        self.at = start + length;
        Ok(Amount::Label(Target { start, length }))
    }

    fn mark(&mut self, mark: Mark) -> Result<(), Other> {
        let at = self.past_blanks();
        if self.text.len() <= at || self.text[at] != mark.byte {
            return Err(Other);
        }
        self.at = at + 1;
        Ok(())
    }

    ghost laws = { bytes_laws present };
}
