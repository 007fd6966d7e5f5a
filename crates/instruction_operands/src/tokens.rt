// The tokens of a line as a source of operands. What names their type is named within the blocks of its methods, since its invariant may not.
ghost use Rattle.std.specs.Prelude.{◌≡◌, List, ℕ};
ghost use Rattle.text_lexical.specs.Promised.{index_of};
ghost use Rattle.refusal.specs.Refusals.{answered};
ghost use Rattle.text.specs.Promised.{kind_meant};
ghost use Rattle.instruction.specs.Operands.{read_register};
ghost use Rattle.instruction_operands.specs.Sources.{InSource};

use crate::source::OperandSource;
use instruction::form::Mark;
use instruction::instruction::{Amount, Target};
use refusal::refusal::Refusal;
use text::lexer::{Kind, Token};
use text_lexical::number::NumberRange;
use text_lexical::register::Register;

// The register that a token names.
#[tactic(auto, unfolding(instruction::specs::Operands::read_register))]
fn extract_register(kind: Kind) -> Result<Register, Refusal>
    ensures { (u : List ℕ) → answered index_of result ≡ read_register (kind_meant kind u) }
{
    match kind {
        Kind::Register(register) => Ok(register),
        Kind::NoRegister => Err(Refusal::NoSuchRegister),
        _ => Err(Refusal::RegisterExpected),
    }
}

// The tokens of a line from one on, and the source in which they are spelled: each is a part of it.
#[derive(Drop)]
pub(crate) struct Tokens<'a> {
    source: &'a [u8],
    left: &'a [Token],
    ghost in_source: { InSource source.now left.now },
}

impl<'a> Tokens<'a> {
    ghost use Rattle.instruction_operands.specs.Promised.{TokenGone};

    // Tokens that are parts of the source.
    pub(crate) fn new(source: &'a [u8], left: &'a [Token]) -> Tokens<'a>
        requires { InSource source.now left.now }
        ensures source { result.source.now ≡ source.now }
        ensures left { result.left.now ≡ left.now }
    {
        Tokens { source, left }
    }

    // The next token. There always is one: of the nine tokens of a record at least six follow the mnemonic, and no form has more. It is total all
    // the same, and answers as a wrong count does.
    fn take(&mut self) -> Result<Token, Refusal>
        ensures { TokenGone self.old result self.new }
    {
        let (token, left) = self.left.split_first().ok_or(Refusal::OperandCount)?;
        self.left = left;
        Ok(*token)
    }
}

impl OperandSource for Tokens<'_> {
    ghost use Rattle.instruction_operands.specs.Promised.{TokensTook, TokensRefuse, tokens_spell, TokensStand};
    ghost use Rattle.instruction_operands.specs.Laws.{tokens_laws};

    type Error = Refusal;

    ghost Took = { TokensTook };

    ghost Refuses = { TokensRefuse };

    ghost Spells = { tokens_spell };

    ghost Stands = { TokensStand };

    fn register(&mut self) -> Result<Register, Refusal> {
        extract_register(self.take()?.kind)
    }

    fn amount(&mut self, range: NumberRange, label: bool) -> Result<Amount, Refusal> {
        let token = self.take()?;
        if label && token.kind == Kind::Identifier {
            return Ok(Amount::Label(Target {
                start: token.start,
                length: token.length,
            }));
        }
        let number = text::parser::extract_number(token.kind, range)?;
        Ok(Amount::Number(number))
    }

    fn mark(&mut self, mark: Mark) -> Result<(), Refusal> {
        if !text::lexer::is_mark(self.take()?.kind, mark.byte) {
            return Err(mark.refusal);
        }
        Ok(())
    }

    ghost laws = { tokens_laws };
}
