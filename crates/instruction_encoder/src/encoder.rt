// The word of an instruction.
ghost use Rattle.std.specs.Prelude.{◌≡◌};
ghost use Rattle.instruction.specs.Words.{word_of};
ghost use Rattle.instruction.specs.Promised.{instruction_meant};

use instruction::instruction::Instruction;
use instruction::opcode::Mnemonic;
use instruction_codec::encoder::{
    encode_i_type, encode_j_type, encode_r_type, encode_s_type, encode_shift, encode_system,
};

// Each case is encoded by its form, with the opcode of its mnemonic: a line for each, the match that document 01 names.
#[rattlefmt::skip]
#[tactic(auto, unfolding(instruction_codec::specs::Promised::form_word, instruction::specs::Words::word_of,
    instruction::specs::Words::fields, instruction::specs::Promised::row_for, instruction::specs::Promised::registers_for,
    instruction::specs::Promised::number_for, instruction::specs::Table::row_named, instruction::specs::Table::table,
    instruction::specs::Table::row, instruction::specs::Table::places, text_lexical::specs::Bytes::find,
    text_lexical::specs::Bytes::same, text_lexical::specs::Bytes::bytes))]
pub fn encode(instruction: Instruction) -> u32
    ensures { result ≡ word_of (instruction_meant instruction) }
{
    match instruction {
        // arithmetic
        Instruction::Add { rd, rs1, rs2 } => encode_r_type(Mnemonic::Add, rd, rs1, rs2),
        Instruction::Sub { rd, rs1, rs2 } => encode_r_type(Mnemonic::Sub, rd, rs1, rs2),
        Instruction::Mul { rd, rs1, rs2 } => encode_r_type(Mnemonic::Mul, rd, rs1, rs2),
        Instruction::Mulh { rd, rs1, rs2 } => encode_r_type(Mnemonic::Mulh, rd, rs1, rs2),
        Instruction::Divu { rd, rs1, rs2 } => encode_r_type(Mnemonic::Divu, rd, rs1, rs2),
        Instruction::Remu { rd, rs1, rs2 } => encode_r_type(Mnemonic::Remu, rd, rs1, rs2),
        Instruction::Div { rd, rs1, rs2 } => encode_r_type(Mnemonic::Div, rd, rs1, rs2),
        Instruction::Rem { rd, rs1, rs2 } => encode_r_type(Mnemonic::Rem, rd, rs1, rs2),
        Instruction::Addi { rd, rs1, imm } => encode_i_type(Mnemonic::Addi, rd, rs1, imm),
        // logical
        Instruction::And { rd, rs1, rs2 } => encode_r_type(Mnemonic::And, rd, rs1, rs2),
        Instruction::Or { rd, rs1, rs2 } => encode_r_type(Mnemonic::Or, rd, rs1, rs2),
        Instruction::Xor { rd, rs1, rs2 } => encode_r_type(Mnemonic::Xor, rd, rs1, rs2),
        Instruction::Andi { rd, rs1, imm } => encode_i_type(Mnemonic::Andi, rd, rs1, imm),
        Instruction::Ori { rd, rs1, imm } => encode_i_type(Mnemonic::Ori, rd, rs1, imm),
        Instruction::Xori { rd, rs1, imm } => encode_i_type(Mnemonic::Xori, rd, rs1, imm),
        // shift
        Instruction::Sll { rd, rs1, rs2 } => encode_r_type(Mnemonic::Sll, rd, rs1, rs2),
        Instruction::Srl { rd, rs1, rs2 } => encode_r_type(Mnemonic::Srl, rd, rs1, rs2),
        Instruction::Sra { rd, rs1, rs2 } => encode_r_type(Mnemonic::Sra, rd, rs1, rs2),
        Instruction::Slli { rd, rs1, shamt } => encode_shift(Mnemonic::Slli, rd, rs1, shamt),
        Instruction::Srli { rd, rs1, shamt } => encode_shift(Mnemonic::Srli, rd, rs1, shamt),
        Instruction::Srai { rd, rs1, shamt } => encode_shift(Mnemonic::Srai, rd, rs1, shamt),
        // compare
        Instruction::Sltu { rd, rs1, rs2 } => encode_r_type(Mnemonic::Sltu, rd, rs1, rs2),
        Instruction::Sgeu { rd, rs1, rs2 } => encode_r_type(Mnemonic::Sgeu, rd, rs1, rs2),
        Instruction::Slt { rd, rs1, rs2 } => encode_r_type(Mnemonic::Slt, rd, rs1, rs2),
        Instruction::Sge { rd, rs1, rs2 } => encode_r_type(Mnemonic::Sge, rd, rs1, rs2),
        Instruction::Seq { rd, rs1, rs2 } => encode_r_type(Mnemonic::Seq, rd, rs1, rs2),
        Instruction::Sne { rd, rs1, rs2 } => encode_r_type(Mnemonic::Sne, rd, rs1, rs2),
        // conditional move
        Instruction::Cmov { rd, rs1, rs2 } => encode_r_type(Mnemonic::Cmov, rd, rs1, rs2),
        Instruction::Cmovz { rd, rs1, rs2 } => encode_r_type(Mnemonic::Cmovz, rd, rs1, rs2),
        Instruction::Cmovnz { rd, rs1, rs2 } => encode_r_type(Mnemonic::Cmovnz, rd, rs1, rs2),
        // load
        Instruction::Lb { rd, rs1, imm } => encode_i_type(Mnemonic::Lb, rd, rs1, imm),
        Instruction::Lbu { rd, rs1, imm } => encode_i_type(Mnemonic::Lbu, rd, rs1, imm),
        Instruction::Lh { rd, rs1, imm } => encode_i_type(Mnemonic::Lh, rd, rs1, imm),
        Instruction::Lhu { rd, rs1, imm } => encode_i_type(Mnemonic::Lhu, rd, rs1, imm),
        Instruction::Lw { rd, rs1, imm } => encode_i_type(Mnemonic::Lw, rd, rs1, imm),
        Instruction::Ld { rd, rs1, imm } => encode_i_type(Mnemonic::Ld, rd, rs1, imm),
        // store
        Instruction::Sb { rs1, rs2, imm } => encode_s_type(Mnemonic::Sb, rs1, rs2, imm),
        Instruction::Sh { rs1, rs2, imm } => encode_s_type(Mnemonic::Sh, rs1, rs2, imm),
        Instruction::Sw { rs1, rs2, imm } => encode_s_type(Mnemonic::Sw, rs1, rs2, imm),
        Instruction::Sd { rs1, rs2, imm } => encode_s_type(Mnemonic::Sd, rs1, rs2, imm),
        // branch
        Instruction::Beq { rs1, rs2, offset } => encode_i_type(Mnemonic::Beq, rs1, rs2, offset),
        Instruction::Bne { rs1, rs2, offset } => encode_i_type(Mnemonic::Bne, rs1, rs2, offset),
        Instruction::Blt { rs1, rs2, offset } => encode_i_type(Mnemonic::Blt, rs1, rs2, offset),
        Instruction::Bge { rs1, rs2, offset } => encode_i_type(Mnemonic::Bge, rs1, rs2, offset),
        Instruction::Bltu { rs1, rs2, offset } => encode_i_type(Mnemonic::Bltu, rs1, rs2, offset),
        Instruction::Bgeu { rs1, rs2, offset } => encode_i_type(Mnemonic::Bgeu, rs1, rs2, offset),
        // jump
        Instruction::Jal { rd, offset } => encode_j_type(Mnemonic::Jal, rd, offset),
        Instruction::Jalr { rd, rs1, imm } => encode_i_type(Mnemonic::Jalr, rd, rs1, imm),
        // system
        Instruction::Ecall => encode_system(Mnemonic::Ecall),
        Instruction::Ebreak => encode_system(Mnemonic::Ebreak),
    }
}
