// The table of the fifty mnemonics: key, opcode and form, by ascending opcode; and the tables by which a mnemonic is found.
ghost use Rattle.std.specs.Prelude.{◌≡◌, ◌<◌, eqb};
ghost use Rattle.text_lexical.specs.Bytes.{find};
ghost use Rattle.text_lexical.specs.Promised.{packed};
ghost use Rattle.instruction.specs.Table.{table, row_coded};
ghost use Rattle.instruction.specs.Promised.{row_of, form_meant, found_meant};

use crate::field::OPCODES;
use crate::form::Form;

// The mnemonics in the order of the table.
#[derive(Clone, Copy)]
pub enum Mnemonic {
    Add,
    Sub,
    Mul,
    Mulh,
    Divu,
    Remu,
    Div,
    Rem,
    Addi,
    And,
    Or,
    Xor,
    Andi,
    Ori,
    Xori,
    Sll,
    Srl,
    Sra,
    Slli,
    Srli,
    Srai,
    Sltu,
    Sgeu,
    Slt,
    Sge,
    Seq,
    Sne,
    Cmov,
    Cmovz,
    Cmovnz,
    Lb,
    Lbu,
    Lh,
    Lhu,
    Lw,
    Ld,
    Sb,
    Sh,
    Sw,
    Sd,
    Beq,
    Bne,
    Blt,
    Bge,
    Bltu,
    Bgeu,
    Jal,
    Jalr,
    Ecall,
    Ebreak,
}

// A mnemonic as its key, the letters, the first lowest, with a 1 after them; its opcode; and the form of its operands.
#[derive(Clone, Copy)]
struct Row {
    key: u64,
    opcode: u8,
    form: Form,
}

// Assembling and listing read each row here.
#[rattlefmt::skip]
static ROWS: [Row; 50] = [
    Row { key: 0x1646461, opcode: 0x00, form: Form::R }, // add
    Row { key: 0x1627573, opcode: 0x01, form: Form::R }, // sub
    Row { key: 0x16C756D, opcode: 0x02, form: Form::R }, // mul
    Row { key: 0x1686C756D, opcode: 0x03, form: Form::R }, // mulh
    Row { key: 0x175766964, opcode: 0x04, form: Form::R }, // divu
    Row { key: 0x1756D6572, opcode: 0x05, form: Form::R }, // remu
    Row { key: 0x1766964, opcode: 0x06, form: Form::R }, // div
    Row { key: 0x16D6572, opcode: 0x07, form: Form::R }, // rem
    Row { key: 0x169646461, opcode: 0x08, form: Form::I }, // addi
    Row { key: 0x1646E61, opcode: 0x10, form: Form::R }, // and
    Row { key: 0x1726F, opcode: 0x11, form: Form::R }, // or
    Row { key: 0x1726F78, opcode: 0x12, form: Form::R }, // xor
    Row { key: 0x169646E61, opcode: 0x13, form: Form::I }, // andi
    Row { key: 0x169726F, opcode: 0x14, form: Form::I }, // ori
    Row { key: 0x169726F78, opcode: 0x15, form: Form::I }, // xori
    Row { key: 0x16C6C73, opcode: 0x18, form: Form::R }, // sll
    Row { key: 0x16C7273, opcode: 0x19, form: Form::R }, // srl
    Row { key: 0x1617273, opcode: 0x1A, form: Form::R }, // sra
    Row { key: 0x1696C6C73, opcode: 0x1B, form: Form::Shift }, // slli
    Row { key: 0x1696C7273, opcode: 0x1C, form: Form::Shift }, // srli
    Row { key: 0x169617273, opcode: 0x1D, form: Form::Shift }, // srai
    Row { key: 0x175746C73, opcode: 0x20, form: Form::R }, // sltu
    Row { key: 0x175656773, opcode: 0x21, form: Form::R }, // sgeu
    Row { key: 0x1746C73, opcode: 0x22, form: Form::R }, // slt
    Row { key: 0x1656773, opcode: 0x23, form: Form::R }, // sge
    Row { key: 0x1716573, opcode: 0x24, form: Form::R }, // seq
    Row { key: 0x1656E73, opcode: 0x25, form: Form::R }, // sne
    Row { key: 0x1766F6D63, opcode: 0x26, form: Form::R }, // cmov
    Row { key: 0x17A766F6D63, opcode: 0x27, form: Form::R }, // cmovz
    Row { key: 0x17A6E766F6D63, opcode: 0x28, form: Form::R }, // cmovnz
    Row { key: 0x1626C, opcode: 0x30, form: Form::Load }, // lb
    Row { key: 0x175626C, opcode: 0x31, form: Form::Load }, // lbu
    Row { key: 0x1686C, opcode: 0x32, form: Form::Load }, // lh
    Row { key: 0x175686C, opcode: 0x33, form: Form::Load }, // lhu
    Row { key: 0x1776C, opcode: 0x34, form: Form::Load }, // lw
    Row { key: 0x1646C, opcode: 0x35, form: Form::Load }, // ld
    Row { key: 0x16273, opcode: 0x38, form: Form::Store }, // sb
    Row { key: 0x16873, opcode: 0x39, form: Form::Store }, // sh
    Row { key: 0x17773, opcode: 0x3A, form: Form::Store }, // sw
    Row { key: 0x16473, opcode: 0x3B, form: Form::Store }, // sd
    Row { key: 0x1716562, opcode: 0x40, form: Form::Branch }, // beq
    Row { key: 0x1656E62, opcode: 0x41, form: Form::Branch }, // bne
    Row { key: 0x1746C62, opcode: 0x42, form: Form::Branch }, // blt
    Row { key: 0x1656762, opcode: 0x43, form: Form::Branch }, // bge
    Row { key: 0x175746C62, opcode: 0x44, form: Form::Branch }, // bltu
    Row { key: 0x175656762, opcode: 0x45, form: Form::Branch }, // bgeu
    Row { key: 0x16C616A, opcode: 0x48, form: Form::Jump }, // jal
    Row { key: 0x1726C616A, opcode: 0x49, form: Form::I }, // jalr
    Row { key: 0x16C6C616365, opcode: 0x50, form: Form::System }, // ecall
    Row { key: 0x16B6165726265, opcode: 0x51, form: Form::System }, // ebreak
];

// Where a mnemonic may stand is told by its key's residue modulo so many, by which all fifty differ.
const PLACES: usize = 293;

// The mnemonic at each place: there is no heap for a map.
#[rattlefmt::skip]
static SLOTS: [Option<Mnemonic>; PLACES] = [
    None, None, None, None, Some(Mnemonic::Lw), None, None, Some(Mnemonic::Lhu), None, Some(Mnemonic::Andi), None, Some(Mnemonic::Sw),
    Some(Mnemonic::Cmovnz), Some(Mnemonic::Rem), None, None, None, None, Some(Mnemonic::Add), Some(Mnemonic::Bgeu), None, None, None,
    None, None, None, None, None, None, None, None, None, None, None, None, None, Some(Mnemonic::Sgeu), None, None, None, None, None,
    None, None, None, None, Some(Mnemonic::Cmov), None, Some(Mnemonic::Xor), None, None, None, None, None, None, Some(Mnemonic::Jalr),
    None, None, None, None, None, None, None, None, None, None, None, None, None, None, None, None, None, Some(Mnemonic::Divu), None,
    None, None, None, None, None, None, None, None, None, Some(Mnemonic::Cmovz), None, Some(Mnemonic::Addi), None, None, None, None,
    None, None, None, None, None, None, None, Some(Mnemonic::Mul), Some(Mnemonic::Sra), None, None, None, None, None,
    Some(Mnemonic::Bge), None, None, None, None, None, None, None, None, None, Some(Mnemonic::Ebreak), Some(Mnemonic::Xori), None, None,
    None, None, Some(Mnemonic::Ld), Some(Mnemonic::Sge), None, None, None, None, None, Some(Mnemonic::Sd), None, Some(Mnemonic::Mulh),
    None, None, None, None, None, None, None, None, Some(Mnemonic::Bne), None, None, None, None, Some(Mnemonic::Sll), None, None, None,
    None, None, None, None, Some(Mnemonic::Bltu), None, None, None, Some(Mnemonic::Sne), None, None, Some(Mnemonic::Div), None, None,
    None, None, Some(Mnemonic::Ecall), None, None, Some(Mnemonic::Srai), None, Some(Mnemonic::Sltu), None, None, None, None, None, None,
    None, None, None, None, None, None, None, None, None, Some(Mnemonic::Sub), None, None, None, None, None, None, Some(Mnemonic::Or),
    None, None, Some(Mnemonic::Lb), None, None, None, Some(Mnemonic::Beq), None, None, Some(Mnemonic::Sb), None, None, None,
    Some(Mnemonic::Ori), None, None, None, None, None, Some(Mnemonic::Slli), None, None, Some(Mnemonic::Srl), Some(Mnemonic::Seq), None,
    None, None, Some(Mnemonic::Remu), None, None, None, None, None, None, None, None, Some(Mnemonic::Lbu), None, None, None, None,
    Some(Mnemonic::And), None, None, None, Some(Mnemonic::Blt), None, None, None, None, None, None, None, None, None, None,
    Some(Mnemonic::Jal), None, None, None, None, None, Some(Mnemonic::Slt), None, None, None, None, None, None, None, None, None, None,
    Some(Mnemonic::Lh), None, None, None, None, None, None, Some(Mnemonic::Sh), None, None, None, None, None, None, None, None, None,
    Some(Mnemonic::Srli), None, None, None, None, None, None, None, None, None,
];

// The mnemonic of each opcode: a table of its own beside the rows, for the same reason.
#[rattlefmt::skip]
static CODED: [Option<Mnemonic>; OPCODES as usize] = [
    Some(Mnemonic::Add), Some(Mnemonic::Sub), Some(Mnemonic::Mul), Some(Mnemonic::Mulh), Some(Mnemonic::Divu), Some(Mnemonic::Remu),
    Some(Mnemonic::Div), Some(Mnemonic::Rem), Some(Mnemonic::Addi), None, None, None, None, None, None, None, Some(Mnemonic::And),
    Some(Mnemonic::Or), Some(Mnemonic::Xor), Some(Mnemonic::Andi), Some(Mnemonic::Ori), Some(Mnemonic::Xori), None, None,
    Some(Mnemonic::Sll), Some(Mnemonic::Srl), Some(Mnemonic::Sra), Some(Mnemonic::Slli), Some(Mnemonic::Srli), Some(Mnemonic::Srai),
    None, None, Some(Mnemonic::Sltu), Some(Mnemonic::Sgeu), Some(Mnemonic::Slt), Some(Mnemonic::Sge), Some(Mnemonic::Seq),
    Some(Mnemonic::Sne), Some(Mnemonic::Cmov), Some(Mnemonic::Cmovz), Some(Mnemonic::Cmovnz), None, None, None, None, None, None, None,
    Some(Mnemonic::Lb), Some(Mnemonic::Lbu), Some(Mnemonic::Lh), Some(Mnemonic::Lhu), Some(Mnemonic::Lw), Some(Mnemonic::Ld), None,
    None, Some(Mnemonic::Sb), Some(Mnemonic::Sh), Some(Mnemonic::Sw), Some(Mnemonic::Sd), None, None, None, None, Some(Mnemonic::Beq),
    Some(Mnemonic::Bne), Some(Mnemonic::Blt), Some(Mnemonic::Bge), Some(Mnemonic::Bltu), Some(Mnemonic::Bgeu), None, None,
    Some(Mnemonic::Jal), Some(Mnemonic::Jalr), None, None, None, None, None, None, Some(Mnemonic::Ecall), Some(Mnemonic::Ebreak), None,
    None, None, None, None, None, None, None, None, None, None, None, None, None, None, None, None, None, None, None, None, None, None,
    None, None, None, None, None, None, None, None, None, None, None, None, None, None, None, None, None, None, None, None, None, None,
    None,
];

#[rattlefmt::skip]
#[tactic(auto, unfolding(
    crate::specs::Promised::row_for, crate::specs::Table::row_named, crate::specs::Table::table, crate::specs::Table::row,
    text_lexical::specs::Bytes::find, text_lexical::specs::Bytes::same, text_lexical::specs::Bytes::bytes,
    text_lexical::specs::Promised::packed
))]
impl Mnemonic {
    // The key of its spelling.
    pub fn key(self) -> u64
        ensures { result ≡ packed (row_of self).mnemonic }
    {
        ROWS[self as usize].key
    }

    pub fn opcode(self) -> u8
        ensures value { result ≡ (row_of self).opcode }
        ensures bound { result < 0x80 }
    {
        ROWS[self as usize].opcode
    }

    pub fn form(self) -> Form
        ensures { form_meant result ≡ (row_of self).form }
    {
        ROWS[self as usize].form
    }
}

// The mnemonic with a key.
pub fn find_mnemonic(key: u64) -> Option<Mnemonic>
    ensures { found_meant result ≡ find (λ q. eqb (packed q.mnemonic) key) table }
{
    let mnemonic = SLOTS[(key % PLACES as u64) as usize]?;
    if mnemonic.key() == key {
        return Some(mnemonic);
    }
    None
}

// The mnemonic with an opcode.
pub fn find_opcode(opcode: u32) -> Option<Mnemonic>
    ensures { found_meant result ≡ row_coded opcode }
{
    *CODED.get(opcode as usize)?
}
