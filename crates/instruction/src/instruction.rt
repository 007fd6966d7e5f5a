// The instructions of zkIR v3.4: fifty cases, each with its registers and, where the form has one, its number.
ghost use Rattle.std.specs.Prelude.{◌≡◌};
ghost use Rattle.instruction.specs.Promised.{names_label, operands_with, row_of, keep, parts_of, instruction_meant, parts_meant};

use crate::opcode::Mnemonic;
use text_lexical::number::Whole;
use text_lexical::register::Register;

// The instructions, a line each.
#[rattlefmt::skip]
#[derive(Clone, Copy)]
pub enum Instruction {
    // arithmetic
    Add { rd: Register, rs1: Register, rs2: Register },
    Sub { rd: Register, rs1: Register, rs2: Register },
    Mul { rd: Register, rs1: Register, rs2: Register },
    Mulh { rd: Register, rs1: Register, rs2: Register },
    Divu { rd: Register, rs1: Register, rs2: Register },
    Remu { rd: Register, rs1: Register, rs2: Register },
    Div { rd: Register, rs1: Register, rs2: Register },
    Rem { rd: Register, rs1: Register, rs2: Register },
    Addi { rd: Register, rs1: Register, imm: Whole },
    // logical
    And { rd: Register, rs1: Register, rs2: Register },
    Or { rd: Register, rs1: Register, rs2: Register },
    Xor { rd: Register, rs1: Register, rs2: Register },
    Andi { rd: Register, rs1: Register, imm: Whole },
    Ori { rd: Register, rs1: Register, imm: Whole },
    Xori { rd: Register, rs1: Register, imm: Whole },
    // shift
    Sll { rd: Register, rs1: Register, rs2: Register },
    Srl { rd: Register, rs1: Register, rs2: Register },
    Sra { rd: Register, rs1: Register, rs2: Register },
    Slli { rd: Register, rs1: Register, shamt: Whole },
    Srli { rd: Register, rs1: Register, shamt: Whole },
    Srai { rd: Register, rs1: Register, shamt: Whole },
    // compare
    Sltu { rd: Register, rs1: Register, rs2: Register },
    Sgeu { rd: Register, rs1: Register, rs2: Register },
    Slt { rd: Register, rs1: Register, rs2: Register },
    Sge { rd: Register, rs1: Register, rs2: Register },
    Seq { rd: Register, rs1: Register, rs2: Register },
    Sne { rd: Register, rs1: Register, rs2: Register },
    // conditional move
    Cmov { rd: Register, rs1: Register, rs2: Register },
    Cmovz { rd: Register, rs1: Register, rs2: Register },
    Cmovnz { rd: Register, rs1: Register, rs2: Register },
    // load
    Lb { rd: Register, rs1: Register, imm: Whole },
    Lbu { rd: Register, rs1: Register, imm: Whole },
    Lh { rd: Register, rs1: Register, imm: Whole },
    Lhu { rd: Register, rs1: Register, imm: Whole },
    Lw { rd: Register, rs1: Register, imm: Whole },
    Ld { rd: Register, rs1: Register, imm: Whole },
    // store
    Sb { rs1: Register, rs2: Register, imm: Whole },
    Sh { rs1: Register, rs2: Register, imm: Whole },
    Sw { rs1: Register, rs2: Register, imm: Whole },
    Sd { rs1: Register, rs2: Register, imm: Whole },
    // branch
    Beq { rs1: Register, rs2: Register, offset: Whole },
    Bne { rs1: Register, rs2: Register, offset: Whole },
    Blt { rs1: Register, rs2: Register, offset: Whole },
    Bge { rs1: Register, rs2: Register, offset: Whole },
    Bltu { rs1: Register, rs2: Register, offset: Whole },
    Bgeu { rs1: Register, rs2: Register, offset: Whole },
    // jump
    Jal { rd: Register, offset: Whole },
    Jalr { rd: Register, rs1: Register, imm: Whole },
    // system
    Ecall,
    Ebreak,
}

// Registers and number in operand order. What a form has no place for is not looked at.
#[derive(Clone, Copy)]
pub struct Operands {
    pub first: Register,
    pub second: Register,
    pub third: Register,
    pub number: Whole,
}

// A label that an operand names: where its spelling stands in the source, two numbers as a label has them.
#[derive(Clone, Copy)]
pub struct Target {
    pub start: usize,
    pub length: usize,
}

// The operand that is an instruction's number, or a label whose distance is to be it.
#[derive(Clone, Copy)]
pub enum Amount {
    Number(Whole),
    Label(Target),
}

// What a line has of an instruction: its mnemonic, its registers in operand order, and its number, which only all lines may tell. What
// its form has no place for is R0 and 0.
#[derive(Clone, Copy)]
pub struct Draft {
    pub mnemonic: Mnemonic,
    pub registers: [Register; 3],
    pub amount: Amount,
}

impl Draft {
    // Whether a label stands for its number.
    pub fn names_label(self) -> bool
        ensures { result ≡ names_label self.amount }
    {
        matches!(self.amount, Amount::Label(_))
    }
}

impl Operands {
    // The operands of a line, from three registers and a number. Registers come as an array here, since the loop that reads a line puts each by its
    // count, and have names in the struct, since the fifty cases take them by name.
    pub fn new(registers: [Register; 3], number: Whole) -> Operands
        ensures { result ≡ operands_with registers number }
    {
        Operands {
            first: registers[0],
            second: registers[1],
            third: registers[2],
            number,
        }
    }
}

impl Instruction {
    // The instruction of a mnemonic with operands: a line for each case, the match that document 01 names. It is compiled in line: an
    // instruction that is handed on through memory waits for its own bytes.
    #[inline(always)]
    #[rattlefmt::skip]
    #[tactic(auto, unfolding(
        crate::specs::Promised::row_for, crate::specs::Promised::registers_for, crate::specs::Promised::number_for,
        crate::specs::Table::row_named, crate::specs::Table::table, crate::specs::Table::row, crate::specs::Table::places,
        text_lexical::specs::Bytes::find, text_lexical::specs::Bytes::same, text_lexical::specs::Bytes::bytes
    ))]
    pub fn from_parts(mnemonic: Mnemonic, operands: Operands) -> Instruction
        ensures value { parts_of result ≡ record { mnemonic = (row_of mnemonic).mnemonic; operands = keep (row_of mnemonic).form operands } }
        ensures means { instruction_meant result ≡ parts_meant (record { mnemonic = mnemonic; operands = operands }) }
    {
        let Operands { first, second, third, number } = operands;
        match mnemonic {
            Mnemonic::Add => Instruction::Add { rd: first, rs1: second, rs2: third },
            Mnemonic::Sub => Instruction::Sub { rd: first, rs1: second, rs2: third },
            Mnemonic::Mul => Instruction::Mul { rd: first, rs1: second, rs2: third },
            Mnemonic::Mulh => Instruction::Mulh { rd: first, rs1: second, rs2: third },
            Mnemonic::Divu => Instruction::Divu { rd: first, rs1: second, rs2: third },
            Mnemonic::Remu => Instruction::Remu { rd: first, rs1: second, rs2: third },
            Mnemonic::Div => Instruction::Div { rd: first, rs1: second, rs2: third },
            Mnemonic::Rem => Instruction::Rem { rd: first, rs1: second, rs2: third },
            Mnemonic::Addi => Instruction::Addi { rd: first, rs1: second, imm: number },
            Mnemonic::And => Instruction::And { rd: first, rs1: second, rs2: third },
            Mnemonic::Or => Instruction::Or { rd: first, rs1: second, rs2: third },
            Mnemonic::Xor => Instruction::Xor { rd: first, rs1: second, rs2: third },
            Mnemonic::Andi => Instruction::Andi { rd: first, rs1: second, imm: number },
            Mnemonic::Ori => Instruction::Ori { rd: first, rs1: second, imm: number },
            Mnemonic::Xori => Instruction::Xori { rd: first, rs1: second, imm: number },
            Mnemonic::Sll => Instruction::Sll { rd: first, rs1: second, rs2: third },
            Mnemonic::Srl => Instruction::Srl { rd: first, rs1: second, rs2: third },
            Mnemonic::Sra => Instruction::Sra { rd: first, rs1: second, rs2: third },
            Mnemonic::Slli => Instruction::Slli { rd: first, rs1: second, shamt: number },
            Mnemonic::Srli => Instruction::Srli { rd: first, rs1: second, shamt: number },
            Mnemonic::Srai => Instruction::Srai { rd: first, rs1: second, shamt: number },
            Mnemonic::Sltu => Instruction::Sltu { rd: first, rs1: second, rs2: third },
            Mnemonic::Sgeu => Instruction::Sgeu { rd: first, rs1: second, rs2: third },
            Mnemonic::Slt => Instruction::Slt { rd: first, rs1: second, rs2: third },
            Mnemonic::Sge => Instruction::Sge { rd: first, rs1: second, rs2: third },
            Mnemonic::Seq => Instruction::Seq { rd: first, rs1: second, rs2: third },
            Mnemonic::Sne => Instruction::Sne { rd: first, rs1: second, rs2: third },
            Mnemonic::Cmov => Instruction::Cmov { rd: first, rs1: second, rs2: third },
            Mnemonic::Cmovz => Instruction::Cmovz { rd: first, rs1: second, rs2: third },
            Mnemonic::Cmovnz => Instruction::Cmovnz { rd: first, rs1: second, rs2: third },
            Mnemonic::Lb => Instruction::Lb { rd: first, rs1: second, imm: number },
            Mnemonic::Lbu => Instruction::Lbu { rd: first, rs1: second, imm: number },
            Mnemonic::Lh => Instruction::Lh { rd: first, rs1: second, imm: number },
            Mnemonic::Lhu => Instruction::Lhu { rd: first, rs1: second, imm: number },
            Mnemonic::Lw => Instruction::Lw { rd: first, rs1: second, imm: number },
            Mnemonic::Ld => Instruction::Ld { rd: first, rs1: second, imm: number },
            Mnemonic::Sb => Instruction::Sb { rs1: second, rs2: first, imm: number },
            Mnemonic::Sh => Instruction::Sh { rs1: second, rs2: first, imm: number },
            Mnemonic::Sw => Instruction::Sw { rs1: second, rs2: first, imm: number },
            Mnemonic::Sd => Instruction::Sd { rs1: second, rs2: first, imm: number },
            Mnemonic::Beq => Instruction::Beq { rs1: first, rs2: second, offset: number },
            Mnemonic::Bne => Instruction::Bne { rs1: first, rs2: second, offset: number },
            Mnemonic::Blt => Instruction::Blt { rs1: first, rs2: second, offset: number },
            Mnemonic::Bge => Instruction::Bge { rs1: first, rs2: second, offset: number },
            Mnemonic::Bltu => Instruction::Bltu { rs1: first, rs2: second, offset: number },
            Mnemonic::Bgeu => Instruction::Bgeu { rs1: first, rs2: second, offset: number },
            Mnemonic::Jal => Instruction::Jal { rd: first, offset: number },
            Mnemonic::Jalr => Instruction::Jalr { rd: first, rs1: second, imm: number },
            Mnemonic::Ecall => Instruction::Ecall,
            Mnemonic::Ebreak => Instruction::Ebreak,
        }
    }
}
