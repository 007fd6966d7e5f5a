// The text of an instruction, put into a sink.
ghost use Rattle.instruction.specs.Text.{instruction_text};
ghost use Rattle.instruction.specs.Promised.{instruction_meant};

use instruction::instruction::Instruction;
use instruction::opcode::Mnemonic;
use instruction_codec::display::{put_i_type, put_j_type, put_memory, put_mnemonic, put_r_type};
use text_writer::sink::Sink;

// Each case is put by its form, with its mnemonic: a line for each, the match that document 01 names.
#[rattlefmt::skip]
#[tactic(auto, unfolding(instruction_codec::specs::Promised::form_text, instruction::specs::Text::instruction_text,
    instruction::specs::Text::operands_text, instruction::specs::Text::places_text, instruction::specs::Text::number_text,
    instruction::specs::Promised::row_for, instruction::specs::Promised::registers_for, instruction::specs::Promised::number_for,
    instruction::specs::Table::row_named, instruction::specs::Table::table, instruction::specs::Table::row,
    instruction::specs::Table::places, text_lexical::specs::Bytes::find, text_lexical::specs::Bytes::same,
    text_lexical::specs::Bytes::bytes))]
pub fn put_instruction<S: Sink>(sink: &mut S, instruction: Instruction)
    requires { S.Fits sink.old (instruction_text (instruction_meant instruction)) }
    ensures { S.Took sink.old (instruction_text (instruction_meant instruction)) sink.new }
{
    match instruction {
        // arithmetic
        Instruction::Add { rd, rs1, rs2 } => put_r_type(sink, Mnemonic::Add, rd, rs1, rs2),
        Instruction::Sub { rd, rs1, rs2 } => put_r_type(sink, Mnemonic::Sub, rd, rs1, rs2),
        Instruction::Mul { rd, rs1, rs2 } => put_r_type(sink, Mnemonic::Mul, rd, rs1, rs2),
        Instruction::Mulh { rd, rs1, rs2 } => put_r_type(sink, Mnemonic::Mulh, rd, rs1, rs2),
        Instruction::Divu { rd, rs1, rs2 } => put_r_type(sink, Mnemonic::Divu, rd, rs1, rs2),
        Instruction::Remu { rd, rs1, rs2 } => put_r_type(sink, Mnemonic::Remu, rd, rs1, rs2),
        Instruction::Div { rd, rs1, rs2 } => put_r_type(sink, Mnemonic::Div, rd, rs1, rs2),
        Instruction::Rem { rd, rs1, rs2 } => put_r_type(sink, Mnemonic::Rem, rd, rs1, rs2),
        Instruction::Addi { rd, rs1, imm } => put_i_type(sink, Mnemonic::Addi, rd, rs1, imm),
        // logical
        Instruction::And { rd, rs1, rs2 } => put_r_type(sink, Mnemonic::And, rd, rs1, rs2),
        Instruction::Or { rd, rs1, rs2 } => put_r_type(sink, Mnemonic::Or, rd, rs1, rs2),
        Instruction::Xor { rd, rs1, rs2 } => put_r_type(sink, Mnemonic::Xor, rd, rs1, rs2),
        Instruction::Andi { rd, rs1, imm } => put_i_type(sink, Mnemonic::Andi, rd, rs1, imm),
        Instruction::Ori { rd, rs1, imm } => put_i_type(sink, Mnemonic::Ori, rd, rs1, imm),
        Instruction::Xori { rd, rs1, imm } => put_i_type(sink, Mnemonic::Xori, rd, rs1, imm),
        // shift
        Instruction::Sll { rd, rs1, rs2 } => put_r_type(sink, Mnemonic::Sll, rd, rs1, rs2),
        Instruction::Srl { rd, rs1, rs2 } => put_r_type(sink, Mnemonic::Srl, rd, rs1, rs2),
        Instruction::Sra { rd, rs1, rs2 } => put_r_type(sink, Mnemonic::Sra, rd, rs1, rs2),
        Instruction::Slli { rd, rs1, shamt } => put_i_type(sink, Mnemonic::Slli, rd, rs1, shamt),
        Instruction::Srli { rd, rs1, shamt } => put_i_type(sink, Mnemonic::Srli, rd, rs1, shamt),
        Instruction::Srai { rd, rs1, shamt } => put_i_type(sink, Mnemonic::Srai, rd, rs1, shamt),
        // compare
        Instruction::Sltu { rd, rs1, rs2 } => put_r_type(sink, Mnemonic::Sltu, rd, rs1, rs2),
        Instruction::Sgeu { rd, rs1, rs2 } => put_r_type(sink, Mnemonic::Sgeu, rd, rs1, rs2),
        Instruction::Slt { rd, rs1, rs2 } => put_r_type(sink, Mnemonic::Slt, rd, rs1, rs2),
        Instruction::Sge { rd, rs1, rs2 } => put_r_type(sink, Mnemonic::Sge, rd, rs1, rs2),
        Instruction::Seq { rd, rs1, rs2 } => put_r_type(sink, Mnemonic::Seq, rd, rs1, rs2),
        Instruction::Sne { rd, rs1, rs2 } => put_r_type(sink, Mnemonic::Sne, rd, rs1, rs2),
        // conditional move
        Instruction::Cmov { rd, rs1, rs2 } => put_r_type(sink, Mnemonic::Cmov, rd, rs1, rs2),
        Instruction::Cmovz { rd, rs1, rs2 } => put_r_type(sink, Mnemonic::Cmovz, rd, rs1, rs2),
        Instruction::Cmovnz { rd, rs1, rs2 } => put_r_type(sink, Mnemonic::Cmovnz, rd, rs1, rs2),
        // load
        Instruction::Lb { rd, rs1, imm } => put_memory(sink, Mnemonic::Lb, rd, rs1, imm),
        Instruction::Lbu { rd, rs1, imm } => put_memory(sink, Mnemonic::Lbu, rd, rs1, imm),
        Instruction::Lh { rd, rs1, imm } => put_memory(sink, Mnemonic::Lh, rd, rs1, imm),
        Instruction::Lhu { rd, rs1, imm } => put_memory(sink, Mnemonic::Lhu, rd, rs1, imm),
        Instruction::Lw { rd, rs1, imm } => put_memory(sink, Mnemonic::Lw, rd, rs1, imm),
        Instruction::Ld { rd, rs1, imm } => put_memory(sink, Mnemonic::Ld, rd, rs1, imm),
        // store
        Instruction::Sb { rs1, rs2, imm } => put_memory(sink, Mnemonic::Sb, rs2, rs1, imm),
        Instruction::Sh { rs1, rs2, imm } => put_memory(sink, Mnemonic::Sh, rs2, rs1, imm),
        Instruction::Sw { rs1, rs2, imm } => put_memory(sink, Mnemonic::Sw, rs2, rs1, imm),
        Instruction::Sd { rs1, rs2, imm } => put_memory(sink, Mnemonic::Sd, rs2, rs1, imm),
        // branch
        Instruction::Beq { rs1, rs2, offset } => put_i_type(sink, Mnemonic::Beq, rs1, rs2, offset),
        Instruction::Bne { rs1, rs2, offset } => put_i_type(sink, Mnemonic::Bne, rs1, rs2, offset),
        Instruction::Blt { rs1, rs2, offset } => put_i_type(sink, Mnemonic::Blt, rs1, rs2, offset),
        Instruction::Bge { rs1, rs2, offset } => put_i_type(sink, Mnemonic::Bge, rs1, rs2, offset),
        Instruction::Bltu { rs1, rs2, offset } => put_i_type(sink, Mnemonic::Bltu, rs1, rs2, offset),
        Instruction::Bgeu { rs1, rs2, offset } => put_i_type(sink, Mnemonic::Bgeu, rs1, rs2, offset),
        // jump
        Instruction::Jal { rd, offset } => put_j_type(sink, Mnemonic::Jal, rd, offset),
        Instruction::Jalr { rd, rs1, imm } => put_i_type(sink, Mnemonic::Jalr, rd, rs1, imm),
        // system
        Instruction::Ecall => put_mnemonic(sink, Mnemonic::Ecall),
        Instruction::Ebreak => put_mnemonic(sink, Mnemonic::Ebreak),
    }
}
