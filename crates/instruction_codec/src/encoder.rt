// Words: the word of each form's operands, and a word's instruction.
ghost use Rattle.std.specs.Prelude.{◌≡◌, [], ◌∷◌, ◌+◌, ◌*◌, ◌^◌, ◌≤◌, ◌<◌};
ghost use Rattle.std.proofs.Math.Option.{none, some};
ghost use Rattle.text_lexical.specs.Numbers.{residue, meant_by};
ghost use Rattle.text_lexical.specs.Promised.{index_of, whole_meant, whole_for};
ghost use Rattle.instruction.specs.Table.{R, I, Shift, Store, Jump, System};
ghost use Rattle.instruction.specs.Words.{field_at};
ghost use Rattle.instruction.specs.Promised.{row_of};
ghost use Rattle.instruction_codec.specs.Promised.{DecodesTo, form_word, IsField, highest_number};

use instruction::field::{Field, OPCODES, THIRD};
use instruction::form::{Form, Layout};
use instruction::instruction::{Instruction, Operands};
use instruction::opcode::{Mnemonic, find_opcode};
use refusal::refusal::Refusal;
use text_lexical::number::Whole;
use text_lexical::register::Register;

// A register's number at a bit of a word.
fn register_bits(register: Register, bit: u32) -> u32
    requires { bit ≤ 15 }
    ensures { result ≡ index_of register * 2 ^ bit }
{
    u32::from(u8::from(register)) << bit
}

// What a field of a word keeps of a number, at the field's bit.
fn number_bits(number: Whole, field: Field) -> u32
    requires { IsField field }
    ensures value { result ≡ residue field.range.width (whole_meant number) * 2 ^ field.bit }
    ensures room { result + 2 ^ field.bit ≤ 2 ^ 32 }
{
    let most = u64::from(field.range.size() - 1);
    (number.residue(most) as u32) << field.bit
}

// The registers are parameters of their own, here and in the texts: each of the fifty cases has them by name, and would only pack a struct.
// Each layout has a function of its own, in which it is a constant: no field is looked up. The eight forms have six, since loads and branches
// are encoded as immediates are.

// The opcode and the first two registers of a line, each at its bit.
fn front_bits(mnemonic: Mnemonic, layout: Layout, first: Register, second: Register) -> u32
    requires { (layout.first ≤ 15) × (layout.second ≤ 15) }
    ensures value { result ≡ (row_of mnemonic).opcode + (index_of first * 2 ^ layout.first + index_of second * 2 ^ layout.second) }
    ensures bound { result < 0x80 + 15 * 2 ^ layout.first + 15 * 2 ^ layout.second }
{
    u32::from(mnemonic.opcode())
        + register_bits(first, layout.first)
        + register_bits(second, layout.second)
}

// The word of `rd, rs1, rs2`, by its mnemonic.
#[tactic(auto, using(crate::proofs::Forms::word_registers))]
pub fn encode_r_type(mnemonic: Mnemonic, rd: Register, rs1: Register, rs2: Register) -> u32
    ensures { result ≡ form_word R mnemonic (index_of rd ∷ index_of rs1 ∷ index_of rs2 ∷ []) none }
{
    let layout = Form::R.layout();
    front_bits(mnemonic, layout, rd, rs1) + register_bits(rs2, layout.highest.bit)
}

// The word of `rd, rs1, n`. A load's `rd, n(rs1)` and a branch's `rs1, rs2, n` have the same.
#[tactic(auto, using(crate::proofs::Forms::word_number))]
pub fn encode_i_type(mnemonic: Mnemonic, rd: Register, rs1: Register, imm: Whole) -> u32
    ensures { result ≡ form_word I mnemonic (index_of rd ∷ index_of rs1 ∷ []) (some (whole_meant imm)) }
{
    let layout = Form::I.layout();
    front_bits(mnemonic, layout, rd, rs1) + number_bits(imm, layout.highest)
}

// The word of a shift, `rd, rs1, n`.
#[tactic(auto, using(crate::proofs::Forms::word_shift))]
pub fn encode_shift(mnemonic: Mnemonic, rd: Register, rs1: Register, shamt: Whole) -> u32
    ensures { result ≡ form_word Shift mnemonic (index_of rd ∷ index_of rs1 ∷ []) (some (whole_meant shamt)) }
{
    let layout = Form::Shift.layout();
    front_bits(mnemonic, layout, rd, rs1) + number_bits(shamt, layout.highest)
}

// The word of a store, `rs2, n(rs1)`.
#[tactic(auto, using(crate::proofs::Forms::word_store))]
pub fn encode_s_type(mnemonic: Mnemonic, rs1: Register, rs2: Register, imm: Whole) -> u32
    ensures { result ≡ form_word Store mnemonic (index_of rs2 ∷ index_of rs1 ∷ []) (some (whole_meant imm)) }
{
    let layout = Form::Store.layout();
    front_bits(mnemonic, layout, rs2, rs1) + number_bits(imm, layout.highest)
}

// The word of `rd, n`, which has not the two registers that all other words with operands begin with.
#[tactic(auto, using(crate::proofs::Forms::word_jump))]
pub fn encode_j_type(mnemonic: Mnemonic, rd: Register, offset: Whole) -> u32
    ensures { result ≡ form_word Jump mnemonic (index_of rd ∷ []) (some (whole_meant offset)) }
{
    let layout = Form::Jump.layout();
    u32::from(mnemonic.opcode())
        + register_bits(rd, layout.first)
        + number_bits(offset, layout.highest)
}

// The word of an instruction without operands.
#[tactic(auto, using(crate::proofs::Forms::word_system))]
pub fn encode_system(mnemonic: Mnemonic) -> u32
    ensures { result ≡ form_word System mnemonic [] none }
{
    u32::from(mnemonic.opcode())
}

// The register whose number begins at a bit of a word.
#[tactic(auto, unfolding(instruction::specs::Words::field_at))]
fn register_in(word: u32, bit: u32) -> Register
    requires { bit ≤ 15 }
    ensures { index_of result ≡ field_at word bit 4 }
{
    Register::from_index(((word >> bit) % THIRD.range.size()) as u8)
}

// The number that a field's bits mean. Whether the highest is set is asked here of the bits, and by `NumberRange::holds` whether a number fits.
#[tactic(auto, using(crate::proofs::Forms::number_below, crate::proofs::Forms::number_unsigned, crate::proofs::Forms::number_above))]
fn number_of(bits: u32, field: Field) -> Whole
    requires field { IsField field }
    requires fits { bits < 2 ^ field.range.width }
    ensures { result ≡ whole_for (meant_by field.range.signed field.range.width bits) }
{
    let size = field.range.size();
    if field.range.signed && size <= 2 * bits {
        return Whole::Negative(u64::from(size - bits));
    }
    Whole::NotNegative(u64::from(bits))
}

// The number in a word's highest field, or none where a bit above the field is set.
#[tactic(auto, using(crate::proofs::Forms::highest_some, crate::proofs::Forms::highest_none))]
fn number_in(word: u32, field: Field) -> Option<Whole>
    requires { IsField field }
    ensures { result ≡ highest_number word field }
{
    let bits = word >> field.bit;
    if bits < field.range.size() {
        Some(number_of(bits, field))
    } else {
        None
    }
}

// The instruction of a word, or 30, or 31. It is compiled in line: an instruction that is handed on through memory waits for its own bytes.
#[inline(always)]
#[tactic(auto, using(crate::proofs::Coding::word_unknown, crate::proofs::Coding::word_unused))]
pub fn decode(word: u32) -> Result<Instruction, Refusal>
    ensures { DecodesTo word result }
{
    let Some(mnemonic) = find_opcode(word % OPCODES) else {
        return Err(Refusal::UnknownOpcode);
    };
    let layout = mnemonic.form().layout();
    let Some(number) = number_in(word, layout.highest) else {
        return Err(Refusal::UnusedBit);
    };
    // In the order of a line, as the layout has them. A third register is the highest field of its form.
    let operands = Operands {
        first: register_in(word, layout.first),
        second: register_in(word, layout.second),
        third: register_in(word, layout.highest.bit),
        number,
    };
    Ok(Instruction::from_parts(mnemonic, operands))
}
