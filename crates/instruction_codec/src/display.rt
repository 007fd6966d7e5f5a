// The text of each form of instruction, put into a sink: one function measures a text and writes it.
ghost use Rattle.std.specs.Prelude.{[], ◌∷◌};
ghost use Rattle.std.proofs.Math.Option.{none, some};
ghost use Rattle.text_lexical.specs.Numbers.{signed_decimal};
ghost use Rattle.text_lexical.specs.Promised.{index_of, whole_meant};
ghost use Rattle.instruction.specs.Table.{R, I, Load, Jump};
ghost use Rattle.instruction.specs.Text.{register_text};
ghost use Rattle.instruction.specs.Promised.{row_of};
ghost use Rattle.instruction_codec.specs.Promised.{next_text, base_text, start_text, form_text};

use instruction::opcode::Mnemonic;
use text_lexical::number::Whole;
use text_lexical::register::Register;
use text_writer::sink::Sink;

// A whole number's digits and, below 0, a sign.
fn put_number<S: Sink>(sink: &mut S, number: Whole)
    requires { S.Fits sink.old (signed_decimal (whole_meant number)) }
    ensures { S.Took sink.old (signed_decimal (whole_meant number)) sink.new }
{
    if number.is_negative() {
        sink.put(b'-');
    }
    sink.put_decimal(number.magnitude());
}

fn put_register<S: Sink>(sink: &mut S, register: Register)
    requires { S.Fits sink.old (register_text (index_of register)) }
    ensures { S.Took sink.old (register_text (index_of register)) sink.new }
{
    sink.put(b'r');
    sink.put_decimal(u64::from(u8::from(register)));
}

// A register, with a comma and a space after it.
fn put_next<S: Sink>(sink: &mut S, register: Register)
    requires { S.Fits sink.old (next_text register) }
    ensures { S.Took sink.old (next_text register) sink.new }
{
    put_register(sink, register);
    sink.put_bytes(b", ");
}

// A register in brackets.
fn put_base<S: Sink>(sink: &mut S, register: Register)
    requires { S.Fits sink.old (base_text register) }
    ensures { S.Took sink.old (base_text register) sink.new }
{
    sink.put(b'(');
    put_register(sink, register);
    sink.put(b')');
}

// A mnemonic's letters, which its key has.
pub fn put_mnemonic<S: Sink>(sink: &mut S, mnemonic: Mnemonic)
    requires { S.Fits sink.old (row_of mnemonic).mnemonic }
    ensures { S.Took sink.old (row_of mnemonic).mnemonic sink.new }
{
    let letters = text_lexical::name::letters_of(mnemonic.key());
    sink.put_bytes(&letters.bytes[..letters.length]);
}

// A mnemonic, a space, and the first operand: a register with a comma and a space after it.
fn put_start<S: Sink>(sink: &mut S, mnemonic: Mnemonic, first: Register)
    requires { S.Fits sink.old (start_text mnemonic first) }
    ensures { S.Took sink.old (start_text mnemonic first) sink.new }
{
    put_mnemonic(sink, mnemonic);
    sink.put(b' ');
    put_next(sink, first);
}

// The text of a form with operands is two or three pieces, and differs in which: one function for all would choose among them again. Without
// operands the mnemonic is all of it.

// A mnemonic and `rd, rs1, rs2`.
pub fn put_r_type<S: Sink>(
    sink: &mut S,
    mnemonic: Mnemonic,
    rd: Register,
    rs1: Register,
    rs2: Register,
)
    requires { S.Fits sink.old (form_text R mnemonic (index_of rd ∷ index_of rs1 ∷ index_of rs2 ∷ []) none) }
    ensures { S.Took sink.old (form_text R mnemonic (index_of rd ∷ index_of rs1 ∷ index_of rs2 ∷ []) none) sink.new }
{
    put_start(sink, mnemonic, rd);
    put_next(sink, rs1);
    put_register(sink, rs2);
}

// A mnemonic and `rd, rs1, n`; a branch's `rs1, rs2, n` has the same shape.
pub fn put_i_type<S: Sink>(
    sink: &mut S,
    mnemonic: Mnemonic,
    first: Register,
    second: Register,
    number: Whole,
)
    requires { S.Fits sink.old (form_text I mnemonic (index_of first ∷ index_of second ∷ []) (some (whole_meant number))) }
    ensures { S.Took sink.old (form_text I mnemonic (index_of first ∷ index_of second ∷ []) (some (whole_meant number))) sink.new }
{
    put_start(sink, mnemonic, first);
    put_next(sink, second);
    put_number(sink, number);
}

// A mnemonic and a load's `rd, n(rs1)` or a store's `rs2, n(rs1)`.
pub fn put_memory<S: Sink>(
    sink: &mut S,
    mnemonic: Mnemonic,
    register: Register,
    base: Register,
    number: Whole,
)
    requires { S.Fits sink.old (form_text Load mnemonic (index_of register ∷ index_of base ∷ []) (some (whole_meant number))) }
    ensures { S.Took sink.old (form_text Load mnemonic (index_of register ∷ index_of base ∷ []) (some (whole_meant number))) sink.new }
{
    put_start(sink, mnemonic, register);
    put_number(sink, number);
    put_base(sink, base);
}

// A mnemonic and `rd, n`.
pub fn put_j_type<S: Sink>(sink: &mut S, mnemonic: Mnemonic, rd: Register, offset: Whole)
    requires { S.Fits sink.old (form_text Jump mnemonic (index_of rd ∷ []) (some (whole_meant offset))) }
    ensures { S.Took sink.old (form_text Jump mnemonic (index_of rd ∷ []) (some (whole_meant offset))) sink.new }
{
    put_start(sink, mnemonic, rd);
    put_number(sink, offset);
}
