// What operands are read from, token by token, and the loop that reads the operands of a form from it.
ghost use Rattle.std.specs.Prelude.{ℕ, Bool, List};
ghost use Rattle.text_lexical.specs.Promised.{IsRange};
ghost use Rattle.text.specs.Tokens.{Token};
ghost use Rattle.instruction.specs.Table.{Place};
ghost use Rattle.instruction.specs.declared.instruction.Target.{Target};
ghost use Rattle.instruction_operands.specs.Sources.{SourceLaws, Separates, RegisterTaken, AmountTaken, MarkTaken, OperandsTaken};

use instruction::form::Mark;
use instruction::instruction::{Amount, Draft};
use instruction::opcode::Mnemonic;
use text_lexical::number::{NumberRange, Whole};
use text_lexical::register::Register;

pub trait OperandSource {
    // Why an operand is not read.
    type Error;

    // Tokens were taken, and this is the source afterwards.
    ghost Took: { Self → List Token → Self → Type 0 };

    // What is left does not fill these places, with a label for the number or without, for this reason.
    ghost Refuses: { Self → Bool → List Place → Self.Error → Type 0 };

    // How a label is spelled.
    ghost Spells: { Self → Target → List ℕ };

    // The next token stands there, and this is the source after it.
    ghost Stands: { Self → Target → Self → Type 0 };

    // The register that the next token names. It and `amount` are two methods, since each answers a type of its own.
    fn register(&mut self) -> Result<Register, Self::Error>
        ensures { RegisterTaken Took Refuses self.old result self.new };

    // The number of a range that the next token means, or the label that it names, where a label may stand for the number.
    fn amount(&mut self, range: NumberRange, label: bool) -> Result<Amount, Self::Error>
        requires { IsRange range }
        ensures { AmountTaken Took Refuses Spells Stands range label self.old result self.new };

    // The next token is this mark. That it stands between operands is asked here alone, and no source asks it again.
    fn mark(&mut self, mark: Mark) -> Result<(), Self::Error>
        requires { Separates mark }
        ensures { MarkTaken Took Refuses mark self.old result self.new };

    // Tokens that are taken one after the other are taken together.
    ghost laws: { SourceLaws Took Refuses Spells };
}

// The operands of a mnemonic, from left to right, as its form describes them. One loop for any form and any source: its parts are small, or
// called at this place alone, so that all of it is compiled as one.
pub fn read_operands<S: OperandSource>(
    source: &mut S,
    mnemonic: Mnemonic,
) -> Result<Draft, S::Error>
    ensures { OperandsTaken S.Took S.Refuses S.Spells S.Stands mnemonic source.old result source.new }
{
    let form = mnemonic.form();
    let label = form.takes_label();
    let mut registers = [Register::R0; 3];
    // only some operands are registers, so a register's place is no operand's
    let mut count = 0;
    let mut amount = Amount::Number(Whole::default());
    for operand in form.operands() {
        if operand.is_number() {
            amount = source.amount(form.range(), label)?;
        } else {
            registers[count] = source.register()?;
            count += 1;
        }
        if let Some(mark) = operand.mark() {
            source.mark(mark)?;
        }
    }
    Ok(Draft {
        mnemonic,
        registers,
        amount,
    })
}
