// The fields of a word: where each begins, how many bits it has, and whether it holds numbers below zero. Which form has which is told next to
// the form's operands (`form::Form::layout`); encoding and decoding take them from there, and so does reading a number.
use text_lexical::number::NumberRange;

// A field: its lowest bit, and the numbers that it has room for. It has its lowest bit and not what 1 counts there, since a field is looked up:
// to shift by its bit is quick, where to divide is not.
#[derive(Clone, Copy)]
pub struct Field {
    pub bit: u32,
    pub range: NumberRange,
}

// The opcode, below all other fields. That it begins at bit 0 is known to encoding, which adds it as it is, and to decoding, which takes a
// remainder by `OPCODES`.
pub const OPCODE: Field = Field {
    bit: 0,
    range: NumberRange {
        width: 7,
        signed: false,
    },
};

// How many opcodes there may be. That is the size of their field, by a shift of its own, since a constant calls no function.
pub const OPCODES: u32 = 1 << OPCODE.range.width;

// How many bits a register has.
pub const REGISTER_WIDTH: u32 = 4;

// The bits at which registers begin: one after the other, from the opcode's end on.
pub const LOW: u32 = OPCODE.range.width;

pub const HIGH: u32 = LOW + REGISTER_WIDTH;

const TOP: u32 = HIGH + REGISTER_WIDTH;

// The third register of an instruction that has three.
pub const THIRD: Field = Field {
    bit: TOP,
    range: NumberRange {
        width: REGISTER_WIDTH,
        signed: false,
    },
};

// The number of an instruction with two registers, but for a shift's.
pub const IMMEDIATE: Field = Field {
    bit: TOP,
    range: NumberRange {
        width: 17,
        signed: true,
    },
};

// The amount of a shift.
pub const AMOUNT: Field = Field {
    bit: TOP,
    range: NumberRange {
        width: 8,
        signed: false,
    },
};

// The distance of `jal`.
pub const OFFSET: Field = Field {
    bit: HIGH,
    range: NumberRange {
        width: 21,
        signed: true,
    },
};
