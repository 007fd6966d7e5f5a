// A form: which operands it has, which mark follows each, and in which fields of a word they stand. Whoever reads operands goes through them
// from left to right; of whoever writes an instruction's text each form has a function, in which order and marks stand as they are written.
ghost use Rattle.std.specs.Prelude.{◌≡◌};
ghost use Rattle.instruction.specs.Operands.{takes_label};
ghost use Rattle.instruction.specs.Promised.{form_meant};
ghost use Rattle.text_lexical.specs.Promised.{IsRange};
ghost use Rattle.instruction.specs.Forms.{operand_list, is_number, mark_of, layout_of, range_of};

use crate::field::{AMOUNT, Field, HIGH, IMMEDIATE, LOW, OFFSET, OPCODE, THIRD};
use refusal::refusal::Refusal;
use text_lexical::number::NumberRange;

// The forms of instructions.
#[derive(Clone, Copy, PartialEq)]
pub enum Form {
    // `rd, rs1, rs2`
    R,
    // `rd, rs1, n`
    I,
    // `rd, rs1, n`, where n is a shift amount
    Shift,
    // `rd, n(rs1)`
    Load,
    // `rs2, n(rs1)`
    Store,
    // `rs1, rs2, n`
    Branch,
    // `rd, n`
    Jump,
    // without operands
    System,
}

// An operand, a register or a number, with the mark that follows it.
#[derive(Clone, Copy)]
pub enum Operand {
    RegisterComma,
    NumberOpening,
    RegisterClosing,
    Register,
    Number,
}

// The mark that follows an operand: its byte, and the refusal where something else stands there.
#[derive(Clone, Copy)]
pub struct Mark {
    pub byte: u8,
    pub refusal: Refusal,
}

// Where the operands of a form stand in its word: the bits at which the first two registers of a line begin, and the highest field, above which
// no bit is used. That field is the number's, which says what numbers a line may have too, the third register's, or, without operands, the
// opcode's. Where a form has no such register, the bits are there all the same, so that all forms are decoded alike; `Instruction::from_parts`
// drops what the form has not.
#[derive(Clone, Copy)]
pub struct Layout {
    pub first: u32,
    pub second: u32,
    pub highest: Field,
}

// The operands of each form, left to right. They are looked up: forms follow each other in no order, and a branch for each would often
// be guessed wrong.
#[rattlefmt::skip]
static OPERANDS: [&[Operand]; 8] = [
    &[Operand::RegisterComma, Operand::RegisterComma, Operand::Register], // R
    &[Operand::RegisterComma, Operand::RegisterComma, Operand::Number], // I
    &[Operand::RegisterComma, Operand::RegisterComma, Operand::Number], // Shift
    &[Operand::RegisterComma, Operand::NumberOpening, Operand::RegisterClosing], // Load
    &[Operand::RegisterComma, Operand::NumberOpening, Operand::RegisterClosing], // Store
    &[Operand::RegisterComma, Operand::RegisterComma, Operand::Number], // Branch
    &[Operand::RegisterComma, Operand::Number], // Jump
    &[], // System
];

// The mark after each operand, if one follows it: it is looked up too.
#[rattlefmt::skip]
static MARKS: [Option<Mark>; 5] = [
    Some(Mark { byte: b',', refusal: Refusal::CommaExpected }), // RegisterComma
    Some(Mark { byte: b'(', refusal: Refusal::OpeningExpected }), // NumberOpening
    Some(Mark { byte: b')', refusal: Refusal::ClosingExpected }), // RegisterClosing
    None, // Register
    None, // Number
];

// The layout of each form's word: decoding looks it up, for the same reason.
#[rattlefmt::skip]
static LAYOUTS: [Layout; 8] = [
    Layout { first: LOW, second: HIGH, highest: THIRD }, // R
    Layout { first: LOW, second: HIGH, highest: IMMEDIATE }, // I
    Layout { first: LOW, second: HIGH, highest: AMOUNT }, // Shift
    Layout { first: LOW, second: HIGH, highest: IMMEDIATE }, // Load
    Layout { first: HIGH, second: LOW, highest: IMMEDIATE }, // Store
    Layout { first: LOW, second: HIGH, highest: IMMEDIATE }, // Branch
    Layout { first: LOW, second: HIGH, highest: OFFSET }, // Jump
    Layout { first: LOW, second: HIGH, highest: OPCODE }, // System
];

impl Form {
    pub fn operands(self) -> &'static [Operand]
        ensures { result.now ≡ operand_list (form_meant self) }
    {
        OPERANDS[self as usize]
    }

    // Whether a label may stand for the number, which is then the last operand.
    pub fn takes_label(self) -> bool
        ensures { result ≡ takes_label (form_meant self) }
    {
        matches!(self, Form::Branch | Form::Jump)
    }

    pub fn layout(self) -> Layout
        ensures { result ≡ layout_of (form_meant self) }
    {
        LAYOUTS[self as usize]
    }

    // The numbers that the form's operand may be: those of its highest field. A form without a number has such a range too, which nobody asks
    // for.
    #[tactic(auto, using(crate::proofs::Forms::form_range))]
    pub fn range(self) -> NumberRange
        ensures value { result ≡ range_of (form_meant self) }
        ensures range { IsRange result }
    {
        self.layout().highest.range
    }
}

impl Operand {
    // Whether an operand is a number; else it is a register.
    pub fn is_number(self) -> bool
        ensures { result ≡ is_number self }
    {
        matches!(self, Operand::NumberOpening | Operand::Number)
    }

    #[tactic(auto, unfolding(refusal::specs::Refusals::refusals))]
    pub fn mark(self) -> Option<Mark>
        ensures { result ≡ mark_of self }
    {
        MARKS[self as usize]
    }
}
