// The lines of words.

ghost use Rattle.std.specs.Prelude.{◌≡◌, ◌++◌, ◌∷◌, [], ◌<◌, ◌^◌, IfOk, decimal};
ghost use Rattle.rv_isa.specs.Encoding.{InRange};
ghost use Rattle.rv_isa.specs.Word.{extended};
ghost use Rattle.rv_text.specs.Written.{
  hex_digit,
  hexadecimal,
  number_text,
  register_text,
  operand_text,
  further_text,
  text,
  written,
  written_or_raw,
  raw,
  line_of,
  listed,
  three as three_operands,
  two_and_number as two_and_number_operands,
  one_and_number as one_and_number_operands,
  one_and_address as one_and_address_operands,
};

use crate::operands::Operand;
use itoa::Buffer;
use rv_isa::{Instr, decode};
use std::alloc::{AllocError, Global};

/// No line of a listing has more bytes, with its line feed.
pub const LONGEST_LINE: usize = 22;

fn push_decimal(out: &mut Vec<u8>, number: u32) -> Result<(), AllocError>
    ensures { IfOk result (λ _. out.new.items ≡ out.old.items ++ decimal number) }
{
    let mut buffer = Buffer::new();
    out.extend_from_slice(buffer.format(number).as_bytes())
}

fn push_register(out: &mut Vec<u8>, number: u8) -> Result<(), AllocError>
    ensures { IfOk result (λ _. out.new.items ≡ out.old.items ++ register_text number) }
{
    out.push(b'x')?;
    push_decimal(out, number as u32)
}

fn push_number(out: &mut Vec<u8>, number: u32) -> Result<(), AllocError>
    ensures { IfOk result (λ _. out.new.items ≡ out.old.items ++ number_text number) }
{
    if number < 1 << 31 {
        push_decimal(out, number)
    } else {
        out.push(b'-')?;
        push_decimal(out, u32::MAX - number + 1)
    }
}

fn hex_digit(digit: u32) -> u8
    requires { digit < 16 }
    ensures { result ≡ hex_digit digit }
{
    if digit < 10 {
        b'0' + digit as u8
    } else {
        b'a' - 10 + digit as u8
    }
}

/// Writes the eight hexadecimal digits of a word behind a text.
pub fn push_hexadecimal(out: &mut Vec<u8>, word: u32) -> Result<(), AllocError>
    ensures { IfOk result (λ _. out.new.items ≡ out.old.items ++ hexadecimal word) }
{
    let digits = [
        hex_digit(word >> 28),
        hex_digit((word >> 24) % 16),
        hex_digit((word >> 20) % 16),
        hex_digit((word >> 16) % 16),
        hex_digit((word >> 12) % 16),
        hex_digit((word >> 8) % 16),
        hex_digit((word >> 4) % 16),
        hex_digit(word % 16),
    ];
    out.extend_from_slice(&digits)
}

fn push_address(out: &mut Vec<u8>, offset: u32, base: u8) -> Result<(), AllocError>
    ensures { IfOk result (λ _. out.new.items ≡ out.old.items ++ operand_text (Operand.Address offset base)) }
{
    push_number(out, offset)?;
    out.push(b'(')?;
    push_register(out, base)?;
    out.push(b')')?;
    Ok(())
}

fn push_operand(out: &mut Vec<u8>, operand: Operand) -> Result<(), AllocError>
    ensures { IfOk result (λ _. out.new.items ≡ out.old.items ++ operand_text operand) }
{
    match operand {
        Operand::Register(number) => push_register(out, number),
        Operand::Number(number) => push_number(out, number),
        Operand::Address(offset, base) => push_address(out, offset, base),
        Operand::Word(word) => {
            out.extend_from_slice(b"0x")?;
            push_hexadecimal(out, word)
        }
    }
}

fn push_further(out: &mut Vec<u8>, operand: Operand) -> Result<(), AllocError>
    ensures { IfOk result (λ _. out.new.items ≡ out.old.items ++ further_text (operand ∷ [])) }
{
    out.extend_from_slice(b", ")?;
    push_operand(out, operand)
}

fn push_one(out: &mut Vec<u8>, name: &[u8], operand: Operand) -> Result<(), AllocError>
    ensures { IfOk result (λ _. out.new.items ≡ out.old.items ++ text (name.now, operand ∷ [])) }
{
    out.extend_from_slice(name)?;
    out.push(b' ')?;
    push_operand(out, operand)
}

fn push_two(
    out: &mut Vec<u8>,
    name: &[u8],
    first: Operand,
    second: Operand,
) -> Result<(), AllocError>
    ensures { IfOk result (λ _. out.new.items ≡ out.old.items ++ text (name.now, first ∷ second ∷ [])) }
{
    push_one(out, name, first)?;
    push_further(out, second)
}

fn push_three(
    out: &mut Vec<u8>,
    name: &[u8],
    first: Operand,
    second: Operand,
    third: Operand,
) -> Result<(), AllocError>
    ensures { IfOk result (λ _. out.new.items ≡ out.old.items ++ text (name.now, first ∷ second ∷ third ∷ [])) }
{
    push_two(out, name, first, second)?;
    push_further(out, third)
}

fn three(out: &mut Vec<u8>, name: &[u8], a: u8, b: u8, c: u8) -> Result<(), AllocError>
    ensures { IfOk result (λ _. out.new.items ≡ out.old.items ++ text (name.now, three_operands a b c)) }
{
    push_three(
        out,
        name,
        Operand::Register(a),
        Operand::Register(b),
        Operand::Register(c),
    )
}

fn two_and_number(
    out: &mut Vec<u8>,
    name: &[u8],
    a: u8,
    b: u8,
    number: u32,
) -> Result<(), AllocError>
    ensures { IfOk result (λ _. out.new.items ≡ out.old.items ++ text (name.now, two_and_number_operands a b number)) }
{
    push_three(
        out,
        name,
        Operand::Register(a),
        Operand::Register(b),
        Operand::Number(number),
    )
}

fn one_and_number(out: &mut Vec<u8>, name: &[u8], a: u8, number: u32) -> Result<(), AllocError>
    ensures { IfOk result (λ _. out.new.items ≡ out.old.items ++ text (name.now, one_and_number_operands a number)) }
{
    push_two(out, name, Operand::Register(a), Operand::Number(number))
}

fn one_and_address(
    out: &mut Vec<u8>,
    name: &[u8],
    a: u8,
    offset: u32,
    base: u8,
) -> Result<(), AllocError>
    ensures { IfOk result (λ _. out.new.items ≡ out.old.items ++ text (name.now, one_and_address_operands a offset base)) }
{
    push_two(
        out,
        name,
        Operand::Register(a),
        Operand::Address(offset, base),
    )
}

/// The word of twelve bits, sign-extended.
fn sign_extended(fields: u16) -> u32
    requires { fields < 2 ^ 12 }
    ensures { result ≡ extended 12 fields }
{
    if fields < 1 << 11 {
        fields as u32
    } else {
        u32::MAX - (0xFFF - fields as u32)
    }
}

fn push_instruction(out: &mut Vec<u8>, instruction: Instr) -> Result<(), AllocError>
    requires { InRange instruction }
    ensures { IfOk result (λ _. out.new.items ≡ out.old.items ++ text (written instruction)) }
{
    match instruction {
        Instr::Lui { rd, upper } => one_and_number(out, b"lui", rd, upper),
        Instr::Auipc { rd, upper } => one_and_number(out, b"auipc", rd, upper),
        Instr::Jal { rd, offset } => one_and_number(out, b"jal", rd, offset),
        Instr::Jalr { rd, rs1, imm } => one_and_address(out, b"jalr", rd, imm, rs1),
        Instr::Beq { rs1, rs2, offset } => two_and_number(out, b"beq", rs1, rs2, offset),
        Instr::Bne { rs1, rs2, offset } => two_and_number(out, b"bne", rs1, rs2, offset),
        Instr::Blt { rs1, rs2, offset } => two_and_number(out, b"blt", rs1, rs2, offset),
        Instr::Bge { rs1, rs2, offset } => two_and_number(out, b"bge", rs1, rs2, offset),
        Instr::Bltu { rs1, rs2, offset } => two_and_number(out, b"bltu", rs1, rs2, offset),
        Instr::Bgeu { rs1, rs2, offset } => two_and_number(out, b"bgeu", rs1, rs2, offset),
        Instr::Lb { rd, rs1, imm } => one_and_address(out, b"lb", rd, imm, rs1),
        Instr::Lh { rd, rs1, imm } => one_and_address(out, b"lh", rd, imm, rs1),
        Instr::Lw { rd, rs1, imm } => one_and_address(out, b"lw", rd, imm, rs1),
        Instr::Lbu { rd, rs1, imm } => one_and_address(out, b"lbu", rd, imm, rs1),
        Instr::Lhu { rd, rs1, imm } => one_and_address(out, b"lhu", rd, imm, rs1),
        Instr::Sb { rs1, rs2, imm } => one_and_address(out, b"sb", rs2, imm, rs1),
        Instr::Sh { rs1, rs2, imm } => one_and_address(out, b"sh", rs2, imm, rs1),
        Instr::Sw { rs1, rs2, imm } => one_and_address(out, b"sw", rs2, imm, rs1),
        Instr::Addi { rd, rs1, imm } => two_and_number(out, b"addi", rd, rs1, imm),
        Instr::Slti { rd, rs1, imm } => two_and_number(out, b"slti", rd, rs1, imm),
        Instr::Sltiu { rd, rs1, imm } => two_and_number(out, b"sltiu", rd, rs1, imm),
        Instr::Xori { rd, rs1, imm } => two_and_number(out, b"xori", rd, rs1, imm),
        Instr::Ori { rd, rs1, imm } => two_and_number(out, b"ori", rd, rs1, imm),
        Instr::Andi { rd, rs1, imm } => two_and_number(out, b"andi", rd, rs1, imm),
        Instr::Slli { rd, rs1, shamt } => two_and_number(out, b"slli", rd, rs1, shamt as u32),
        Instr::Srli { rd, rs1, shamt } => two_and_number(out, b"srli", rd, rs1, shamt as u32),
        Instr::Srai { rd, rs1, shamt } => two_and_number(out, b"srai", rd, rs1, shamt as u32),
        Instr::Add { rd, rs1, rs2 } => three(out, b"add", rd, rs1, rs2),
        Instr::Sll { rd, rs1, rs2 } => three(out, b"sll", rd, rs1, rs2),
        Instr::Slt { rd, rs1, rs2 } => three(out, b"slt", rd, rs1, rs2),
        Instr::Sltu { rd, rs1, rs2 } => three(out, b"sltu", rd, rs1, rs2),
        Instr::Xor { rd, rs1, rs2 } => three(out, b"xor", rd, rs1, rs2),
        Instr::Srl { rd, rs1, rs2 } => three(out, b"srl", rd, rs1, rs2),
        Instr::Or { rd, rs1, rs2 } => three(out, b"or", rd, rs1, rs2),
        Instr::And { rd, rs1, rs2 } => three(out, b"and", rd, rs1, rs2),
        Instr::Sub { rd, rs1, rs2 } => three(out, b"sub", rd, rs1, rs2),
        Instr::Sra { rd, rs1, rs2 } => three(out, b"sra", rd, rs1, rs2),
        Instr::Mul { rd, rs1, rs2 } => three(out, b"mul", rd, rs1, rs2),
        Instr::Mulh { rd, rs1, rs2 } => three(out, b"mulh", rd, rs1, rs2),
        Instr::Mulhsu { rd, rs1, rs2 } => three(out, b"mulhsu", rd, rs1, rs2),
        Instr::Mulhu { rd, rs1, rs2 } => three(out, b"mulhu", rd, rs1, rs2),
        Instr::Div { rd, rs1, rs2 } => three(out, b"div", rd, rs1, rs2),
        Instr::Divu { rd, rs1, rs2 } => three(out, b"divu", rd, rs1, rs2),
        Instr::Rem { rd, rs1, rs2 } => three(out, b"rem", rd, rs1, rs2),
        Instr::Remu { rd, rs1, rs2 } => three(out, b"remu", rd, rs1, rs2),
        Instr::Fence { rd, rs1, fields } => two_and_number(
            out,
            b"fence",
            rd,
            rs1,
            sign_extended(fields),
        ),
        Instr::Ecall => out.extend_from_slice(b"ecall"),
        Instr::Ebreak => out.extend_from_slice(b"ebreak"),
    }
}

fn push_raw(out: &mut Vec<u8>, word: u32) -> Result<(), AllocError>
    ensures { IfOk result (λ _. out.new.items ≡ out.old.items ++ text (raw word)) }
{
    push_one(out, b".word", Operand::Word(word))
}

fn push_word(out: &mut Vec<u8>, word: u32) -> Result<(), AllocError>
    ensures { IfOk result (λ _. out.new.items ≡ out.old.items ++ line_of word) }
{
    match decode(word) {
        Some(instruction) => push_instruction(out, instruction),
        None => push_raw(out, word),
    }
}

/// Writes the line of a word behind a text, with its line feed.
pub fn push_line(out: &mut Vec<u8>, word: u32) -> Result<(), AllocError>
    ensures { IfOk result (λ _. out.new.items ≡ out.old.items ++ line_of word ++ 10 ∷ []) }
{
    push_word(out, word)?;
    out.push(b'\n')?;
    Ok(())
}

/// The lines of words, each with a line feed: the instruction of the word, or `.word` and the word where it is none.
pub fn listing(alloc: Global, words: &[u32]) -> Result<Vec<u8>, AllocError>
    ensures { IfOk result (λ lines. lines.items ≡ listed words.now) }
{
    let mut out = Vec::with_capacity(alloc, words.len().saturating_mul(LONGEST_LINE))?;
    for word in words {
        push_line(&mut out, *word)?;
    }
    Ok(out)
}
