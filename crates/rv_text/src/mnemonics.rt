// The instructions of mnemonics with their operands.

ghost use Rattle.std.specs.Prelude.{◌≡◌, ◌∷◌, [], ◌<◌, ◌^◌, ◌%◌, IfSome, option_map, option_and_then, nat_lt};
ghost use Rattle.rv_isa.specs.Encoding.{InRange, IsSigned, word};
ghost use Rattle.rv_text.specs.Reading.{
  alone as alone_rows,
  registers as register_rows,
  immediates as immediate_rows,
  shifts as shift_rows,
  branches as branch_rows,
  addressed as address_rows,
  jumps as jump_rows,
  uppers as upper_rows,
  named,
  where_in,
  fits as fits_in,
  is_offset as offset_in,
  or_else,
  with_number as number_row,
  with_two_and_number as two_and_number_row,
  with_address as address_row,
  instruction,
  word_in,
  parted,
  operands,
  IsNumbered,
};

use crate::operands::{Operand, next_operand};
use rv_isa::{Instr, encode};

/// The mnemonic of a word that is written as a number.
const RAW: &[u8] = b".word";

fn alone(name: &[u8]) -> Option<Instr>
    ensures row { result ≡ named alone_rows name.now }
    ensures in_range { IfSome result InRange }
{
    match name {
        b"ecall" => Some(Instr::Ecall),
        b"ebreak" => Some(Instr::Ebreak),
        _ => None,
    }
}

fn registers(name: &[u8], rd: u8, rs1: u8, rs2: u8) -> Option<Instr>
    requires { rd < 32 × rs1 < 32 × rs2 < 32 }
    ensures row { result ≡ named (register_rows rd rs1 rs2) name.now }
    ensures in_range { IfSome result InRange }
{
    match name {
        b"add" => Some(Instr::Add { rd, rs1, rs2 }),
        b"sub" => Some(Instr::Sub { rd, rs1, rs2 }),
        b"sll" => Some(Instr::Sll { rd, rs1, rs2 }),
        b"slt" => Some(Instr::Slt { rd, rs1, rs2 }),
        b"sltu" => Some(Instr::Sltu { rd, rs1, rs2 }),
        b"xor" => Some(Instr::Xor { rd, rs1, rs2 }),
        b"srl" => Some(Instr::Srl { rd, rs1, rs2 }),
        b"sra" => Some(Instr::Sra { rd, rs1, rs2 }),
        b"or" => Some(Instr::Or { rd, rs1, rs2 }),
        b"and" => Some(Instr::And { rd, rs1, rs2 }),
        b"mul" => Some(Instr::Mul { rd, rs1, rs2 }),
        b"mulh" => Some(Instr::Mulh { rd, rs1, rs2 }),
        b"mulhsu" => Some(Instr::Mulhsu { rd, rs1, rs2 }),
        b"mulhu" => Some(Instr::Mulhu { rd, rs1, rs2 }),
        b"div" => Some(Instr::Div { rd, rs1, rs2 }),
        b"divu" => Some(Instr::Divu { rd, rs1, rs2 }),
        b"rem" => Some(Instr::Rem { rd, rs1, rs2 }),
        b"remu" => Some(Instr::Remu { rd, rs1, rs2 }),
        _ => None,
    }
}

fn immediate(name: &[u8], rd: u8, rs1: u8, imm: u32) -> Option<Instr>
    requires registers { rd < 32 × rs1 < 32 }
    requires number { IsSigned 12 imm }
    ensures row { result ≡ named (immediate_rows rd rs1 imm) name.now }
    ensures in_range { IfSome result InRange }
{
    match name {
        b"addi" => Some(Instr::Addi { rd, rs1, imm }),
        b"slti" => Some(Instr::Slti { rd, rs1, imm }),
        b"sltiu" => Some(Instr::Sltiu { rd, rs1, imm }),
        b"xori" => Some(Instr::Xori { rd, rs1, imm }),
        b"ori" => Some(Instr::Ori { rd, rs1, imm }),
        b"andi" => Some(Instr::Andi { rd, rs1, imm }),
        b"fence" => Some(Instr::Fence {
            rd,
            rs1,
            fields: (imm % (1 << 12)) as u16,
        }),
        _ => None,
    }
}

fn shift(name: &[u8], rd: u8, rs1: u8, shamt: u8) -> Option<Instr>
    requires { rd < 32 × rs1 < 32 × shamt < 32 }
    ensures row { result ≡ named (shift_rows rd rs1 shamt) name.now }
    ensures in_range { IfSome result InRange }
{
    match name {
        b"slli" => Some(Instr::Slli { rd, rs1, shamt }),
        b"srli" => Some(Instr::Srli { rd, rs1, shamt }),
        b"srai" => Some(Instr::Srai { rd, rs1, shamt }),
        _ => None,
    }
}

fn branch(name: &[u8], rs1: u8, rs2: u8, offset: u32) -> Option<Instr>
    requires registers { rs1 < 32 × rs2 < 32 }
    requires number { IsSigned 13 offset × (offset % 2 ≡ 0) }
    ensures row { result ≡ named (branch_rows rs1 rs2 offset) name.now }
    ensures in_range { IfSome result InRange }
{
    match name {
        b"beq" => Some(Instr::Beq { rs1, rs2, offset }),
        b"bne" => Some(Instr::Bne { rs1, rs2, offset }),
        b"blt" => Some(Instr::Blt { rs1, rs2, offset }),
        b"bge" => Some(Instr::Bge { rs1, rs2, offset }),
        b"bltu" => Some(Instr::Bltu { rs1, rs2, offset }),
        b"bgeu" => Some(Instr::Bgeu { rs1, rs2, offset }),
        _ => None,
    }
}

/// Loads, stores and `jalr`: a first register, and an address.
fn addressed(name: &[u8], first: u8, imm: u32, base: u8) -> Option<Instr>
    requires registers { first < 32 × base < 32 }
    requires number { IsSigned 12 imm }
    ensures row { result ≡ named (address_rows first imm base) name.now }
    ensures in_range { IfSome result InRange }
{
    let (rd, rs1, rs2) = (first, base, first);
    match name {
        b"lb" => Some(Instr::Lb { rd, rs1, imm }),
        b"lh" => Some(Instr::Lh { rd, rs1, imm }),
        b"lw" => Some(Instr::Lw { rd, rs1, imm }),
        b"lbu" => Some(Instr::Lbu { rd, rs1, imm }),
        b"lhu" => Some(Instr::Lhu { rd, rs1, imm }),
        b"sb" => Some(Instr::Sb { rs1, rs2, imm }),
        b"sh" => Some(Instr::Sh { rs1, rs2, imm }),
        b"sw" => Some(Instr::Sw { rs1, rs2, imm }),
        b"jalr" => Some(Instr::Jalr { rd, rs1, imm }),
        _ => None,
    }
}

fn jump(name: &[u8], rd: u8, offset: u32) -> Option<Instr>
    requires register { rd < 32 }
    requires number { IsSigned 21 offset × (offset % 2 ≡ 0) }
    ensures row { result ≡ named (jump_rows rd offset) name.now }
    ensures in_range { IfSome result InRange }
{
    match name {
        b"jal" => Some(Instr::Jal { rd, offset }),
        _ => None,
    }
}

fn upper(name: &[u8], rd: u8, upper: u32) -> Option<Instr>
    requires register { rd < 32 }
    requires number { upper < 2 ^ 20 }
    ensures row { result ≡ named (upper_rows rd upper) name.now }
    ensures in_range { IfSome result InRange }
{
    match name {
        b"lui" => Some(Instr::Lui { rd, upper }),
        b"auipc" => Some(Instr::Auipc { rd, upper }),
        _ => None,
    }
}

/// Whether a word is a number of twelve bits in two's complement.
fn is_immediate(number: u32) -> bool
    ensures { result ≡ fits_in 12 number }
{
    number.wrapping_add(1 << 11) < 1 << 12
}

/// Whether a word is an even number of 13 bits.
fn is_branch_offset(number: u32) -> bool
    ensures { result ≡ offset_in 13 number }
{
    number.wrapping_add(1 << 12) < 1 << 13 && number % 2 == 0
}

/// Whether a word is an even number of 21 bits.
fn is_jump_offset(number: u32) -> bool
    ensures { result ≡ offset_in 21 number }
{
    number.wrapping_add(1 << 20) < 1 << 21 && number % 2 == 0
}

fn immediate_in_range(name: &[u8], rd: u8, rs1: u8, imm: u32) -> Option<Instr>
    requires { rd < 32 × rs1 < 32 }
    ensures row { result ≡ named (where_in (fits_in 12 imm) (immediate_rows rd rs1 imm)) name.now }
    ensures in_range { IfSome result InRange }
{
    if is_immediate(imm) {
        immediate(name, rd, rs1, imm)
    } else {
        None
    }
}

fn shift_in_range(name: &[u8], rd: u8, rs1: u8, shamt: u32) -> Option<Instr>
    requires { rd < 32 × rs1 < 32 }
    ensures row { result ≡ named (where_in (nat_lt shamt 32) (shift_rows rd rs1 shamt)) name.now }
    ensures in_range { IfSome result InRange }
{
    if shamt < 32 {
        shift(name, rd, rs1, shamt as u8)
    } else {
        None
    }
}

fn branch_in_range(name: &[u8], rs1: u8, rs2: u8, offset: u32) -> Option<Instr>
    requires { rs1 < 32 × rs2 < 32 }
    ensures row { result ≡ named (where_in (offset_in 13 offset) (branch_rows rs1 rs2 offset)) name.now }
    ensures in_range { IfSome result InRange }
{
    if is_branch_offset(offset) {
        branch(name, rs1, rs2, offset)
    } else {
        None
    }
}

fn jump_in_range(name: &[u8], rd: u8, offset: u32) -> Option<Instr>
    requires { rd < 32 }
    ensures row { result ≡ named (where_in (offset_in 21 offset) (jump_rows rd offset)) name.now }
    ensures in_range { IfSome result InRange }
{
    if is_jump_offset(offset) {
        jump(name, rd, offset)
    } else {
        None
    }
}

fn upper_in_range(name: &[u8], rd: u8, number: u32) -> Option<Instr>
    requires { rd < 32 }
    ensures row { result ≡ named (where_in (nat_lt number (2 ^ 20)) (upper_rows rd number)) name.now }
    ensures in_range { IfSome result InRange }
{
    if number < 1 << 20 {
        upper(name, rd, number)
    } else {
        None
    }
}

/// A register and a number.
fn with_number(name: &[u8], rd: u8, number: u32) -> Option<Instr>
    requires { rd < 32 }
    ensures row { result ≡ number_row name.now rd number }
    ensures in_range { IfSome result InRange }
{
    match jump_in_range(name, rd, number) {
        Some(instruction) => Some(instruction),
        None => upper_in_range(name, rd, number),
    }
}

/// Two registers and a number that is no immediate.
fn shift_or_branch(name: &[u8], first: u8, second: u8, number: u32) -> Option<Instr>
    requires { first < 32 × second < 32 }
    ensures row { result ≡ or_else (named (where_in (nat_lt number 32) (shift_rows first second number)) name.now)
        (named (where_in (offset_in 13 number) (branch_rows first second number)) name.now) }
    ensures in_range { IfSome result InRange }
{
    match shift_in_range(name, first, second, number) {
        Some(instruction) => Some(instruction),
        None => branch_in_range(name, first, second, number),
    }
}

/// Two registers and a number.
fn with_two_and_number(name: &[u8], first: u8, second: u8, number: u32) -> Option<Instr>
    requires { first < 32 × second < 32 }
    ensures row { result ≡ two_and_number_row name.now first second number }
    ensures in_range { IfSome result InRange }
{
    match immediate_in_range(name, first, second, number) {
        Some(instruction) => Some(instruction),
        None => shift_or_branch(name, first, second, number),
    }
}

/// A register and an address.
fn with_address(name: &[u8], first: u8, offset: u32, base: u8) -> Option<Instr>
    requires { first < 32 × base < 32 }
    ensures row { result ≡ address_row name.now first offset base }
    ensures in_range { IfSome result InRange }
{
    if is_immediate(offset) {
        addressed(name, first, offset, base)
    } else {
        None
    }
}

fn word_of(instruction: Option<Instr>) -> Option<u32>
    requires { IfSome instruction InRange }
    ensures { result ≡ option_map word instruction }
{
    match instruction {
        Some(instruction) => Some(encode(instruction)),
        None => None,
    }
}

/// The word of a mnemonic with one operand.
fn with_one(name: &[u8], operand: Operand) -> Option<u32>
    ensures { result ≡ word_in name.now (operand ∷ []) }
{
    match operand {
        Operand::Word(word) if name == RAW => Some(word),
        Operand::Word(_) | Operand::Register(_) | Operand::Number(_) | Operand::Address(_, _) => {
            None
        }
    }
}

/// The word of a mnemonic with a register and one operand more.
fn behind_register(name: &[u8], first: u8, second: Operand) -> Option<u32>
    requires register { first < 32 }
    requires operand { IsNumbered second }
    ensures { result ≡ word_in name.now (Operand.Register first ∷ second ∷ []) }
{
    match second {
        Operand::Number(number) => word_of(with_number(name, first, number)),
        Operand::Address(offset, base) => word_of(with_address(name, first, offset, base)),
        Operand::Register(_) | Operand::Word(_) => None,
    }
}

/// The word of a mnemonic with two operands.
fn with_two(name: &[u8], first: Operand, second: Operand) -> Option<u32>
    requires { IsNumbered first × IsNumbered second }
    ensures { result ≡ word_in name.now (first ∷ second ∷ []) }
{
    match first {
        Operand::Register(register) => behind_register(name, register, second),
        Operand::Number(_) | Operand::Address(_, _) | Operand::Word(_) => None,
    }
}

/// The word of a mnemonic with two registers and one operand more.
fn behind_registers(name: &[u8], first: u8, second: u8, third: Operand) -> Option<u32>
    requires registers { first < 32 × second < 32 }
    requires operand { IsNumbered third }
    ensures { result ≡ word_in name.now (Operand.Register first ∷ Operand.Register second ∷ third ∷ []) }
{
    match third {
        Operand::Register(third) => word_of(registers(name, first, second, third)),
        Operand::Number(number) => word_of(with_two_and_number(name, first, second, number)),
        Operand::Address(_, _) | Operand::Word(_) => None,
    }
}

/// The word of a mnemonic with a register and two operands more.
fn behind_first(name: &[u8], first: u8, second: Operand, third: Operand) -> Option<u32>
    requires register { first < 32 }
    requires operands { IsNumbered second × IsNumbered third }
    ensures { result ≡ word_in name.now (Operand.Register first ∷ second ∷ third ∷ []) }
{
    match second {
        Operand::Register(second) => behind_registers(name, first, second, third),
        Operand::Number(_) | Operand::Address(_, _) | Operand::Word(_) => None,
    }
}

/// The word of a mnemonic with three operands.
fn with_three(name: &[u8], first: Operand, second: Operand, third: Operand) -> Option<u32>
    requires { IsNumbered first × IsNumbered second × IsNumbered third }
    ensures { result ≡ word_in name.now (first ∷ second ∷ third ∷ []) }
{
    match first {
        Operand::Register(first) => behind_first(name, first, second, third),
        Operand::Number(_) | Operand::Address(_, _) | Operand::Word(_) => None,
    }
}

/// The word of a mnemonic with two operands and those of the text.
fn behind_two(name: &[u8], first: Operand, second: Operand, text: &[u8]) -> Option<u32>
    requires { IsNumbered first × IsNumbered second }
    ensures { result ≡ option_and_then (λ more. word_in name.now (first ∷ second ∷ more)) (parted text.now) }
{
    match next_operand(text) {
        Some((third, None)) => with_three(name, first, second, third),
        Some((_, Some(_))) => None,
        None => None,
    }
}

/// The word of a mnemonic with an operand and those of the text.
fn behind_one(name: &[u8], first: Operand, text: &[u8]) -> Option<u32>
    requires { IsNumbered first }
    ensures { result ≡ option_and_then (λ more. word_in name.now (first ∷ more)) (parted text.now) }
{
    match next_operand(text) {
        Some((second, None)) => with_two(name, first, second),
        Some((second, Some(rest))) => behind_two(name, first, second, rest),
        None => None,
    }
}

/// The word of a mnemonic with the operands of the text, if there are such.
pub(crate) fn word_with(name: &[u8], text: &[u8]) -> Option<u32>
    ensures { result ≡ option_and_then (word_in name.now) (operands text.now) }
{
    if text.is_empty() {
        return word_of(alone(name));
    }
    match next_operand(text) {
        Some((first, None)) => with_one(name, first),
        Some((first, Some(rest))) => behind_one(name, first, rest),
        None => None,
    }
}
