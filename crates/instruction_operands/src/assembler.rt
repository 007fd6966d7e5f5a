// Operands: the tokens of a line read as an instruction.
ghost use Rattle.std.specs.Prelude.{◌≡◌, ◌≤◌, ◌<◌, length};
ghost use Rattle.text.specs.Promised.{Kept};
ghost use Rattle.instruction.specs.Table.{places};
ghost use Rattle.instruction.specs.Promised.{form_meant};
ghost use Rattle.instruction_operands.specs.Promised.{RowIs, ParsedIs};

use crate::tokens::Tokens;
use instruction::form::Form;
use instruction::instruction::Draft;
use instruction::opcode::Mnemonic;
use refusal::refusal::Refusal;
use text::lexer::Kind;
use text::parser::Line;

// How many operand tokens a form has: one or two for each operand.
fn operand_count(form: Form) -> usize
    ensures { result ≡ length (places (form_meant form)) }
{
    let mut count = 0;
    for operand in form.operands() {
        count += 1;
        if operand.mark().is_some() {
            count += 1;
        }
    }
    count
}

// The instruction of a mnemonic's row, by the operand tokens after the one at `at`.
// A type for a place from 0 to 2 would ask the same where a place is made, and each use would have to read it out again.
fn parse_row(source: &[u8], mnemonic: Mnemonic, line: &Line, at: usize) -> Result<Draft, Refusal>
    requires token_there { at < line.now.count }
    requires place_in_range { at ≤ 2 }
    requires kept_line { Kept source.now line.now }
    ensures { RowIs source.now mnemonic line.now at result }
{
    if line.count - at - 1 != operand_count(mnemonic.form()) {
        return Err(Refusal::OperandCount);
    }
    let mut tokens = Tokens::new(source, &line.tokens[at + 1..]);
    crate::source::read_operands(&mut tokens, mnemonic)
}

// The instruction whose mnemonic is the token at `at`. A label's two tokens stand before it, at most. It is public, so it asks itself whether
// the token is there and an Identifier, though `image_line: record`, its one caller besides tests, knows the first of each line, and
// the second of some.
pub fn parse_instruction(source: &[u8], line: &Line, at: usize) -> Result<Draft, Refusal>
    requires kept_line { Kept source.now line.now }
    requires place_in_range { at ≤ 2 }
    ensures { ParsedIs source.now line.now at result }
{
    if line.count <= at {
        return Err(Refusal::MnemonicExpected);
    }
    let token = line.tokens[at];
    let Kind::Identifier = token.kind else {
        return Err(Refusal::MnemonicExpected);
    };
    let key = text_lexical::name::lower_key(token.spelling(source));
    let Some(mnemonic) = key.and_then(instruction::opcode::find_mnemonic) else {
        return Err(Refusal::UnknownMnemonic);
    };
    parse_row(source, mnemonic, line, at)
}
